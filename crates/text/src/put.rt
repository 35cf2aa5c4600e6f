ghost use Rattle.std.specs.Prelude.{◌+◌, ◌<◌, ◌≤◌, [], ◌∷◌, length, decimal};
ghost use Rattle.text.specs.Writers.{Writes};

// A buffer, and the place in it where the next byte goes.
#[derive(Drop)]
pub struct Writer<'a> {
    pub out: &'a mut [u8],
    pub at: usize,
}

impl<'a> Writer<'a> {
    pub fn byte(&mut self, byte: u8)
        requires { self.old.at < length self.old.out.now }
        ensures { Writes self.old self.new (byte ∷ []) }
    {
        let at = self.at;
        self.out[at] = byte;
        self.at = at + 1;
    }

    pub fn bytes(&mut self, bytes: &[u8])
        requires { self.old.at + length bytes.now ≤ length self.old.out.now }
        ensures { Writes self.old self.new bytes.now }
    {
        let at = self.at;
        let end = at + bytes.len();
        let out = &mut *self.out;
        let part = &mut out[at..end];
        part.copy_from_slice(bytes);
        self.at = end;
    }

    // A number in decimal.
    // By hand: the kit's `itoa` writes into a buffer of its own, to be copied.
    pub fn decimal(&mut self, n: usize)
        requires { self.old.at + length (decimal n) ≤ length self.old.out.now }
        ensures { Writes self.old self.new (decimal n) }
    {
        if n < 10 {
            self.byte(b'0' + n as u8);
            return;
        }
        self.decimal(n / 10);
        self.byte(b'0' + (n % 10) as u8);
    }
}
