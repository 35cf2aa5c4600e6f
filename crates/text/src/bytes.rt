ghost use Rattle.std.specs.Prelude.{◌≡◌, ◌≤◌, ◌==◌, length, position};
ghost use Rattle.text.specs.Bytes.{class_of, bytes_before};

// What a byte of a line is.
#[derive(Clone, Copy, PartialEq, Eq, Debug)]
pub enum Class {
    Digit,
    Letter,
    Blank,
    Stray,
}

pub fn class_of(byte: u8) -> Class
    ensures { result ≡ class_of byte }
{
    match byte as char {
        '0'..='9' => Class::Digit,
        'a'..='z' => Class::Letter,
        ' ' => Class::Blank,
        _ => Class::Stray,
    }
}

// The place of the first byte that is `byte`.
fn place_of(text: &[u8], byte: u8) -> Option<usize>
    ensures { result ≡ position (λ b. b == byte) text.now }
{
    text.iter().position(|b| *b == byte)
}

// How many bytes stand before the first that is `byte`, or all where none is.
pub(crate) fn bytes_before(text: &[u8], byte: u8) -> usize
    ensures within { result ≤ length text.now }
    ensures value { result ≡ bytes_before byte text.now }
{
    place_of(text, byte).unwrap_or(text.len())
}
