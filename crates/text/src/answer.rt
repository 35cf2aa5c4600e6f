ghost use Rattle.std.specs.Prelude.{◌≡◌, ◌+◌, ◌*◌, ◌<◌, ◌≤◌, [], ◌∷◌, ◌++◌, length, codes, decimal};
ghost use Rattle.text.specs.Sizes.{answer_bytes};
ghost use Rattle.text.specs.Answers.{Wrote, ok_text, hex_digit, hex_text, image_text, no_text, numbers_text};
ghost use Rattle.text.specs.Writers.{Writes};

use crate::put::Writer;
use table::refusal::Reason;

// The bytes of a buffer for an answer line: `ok `, the hexadecimal digits of an image and the line's end.
pub const ANSWER: usize = 3 + 2 * IMAGE + 1;

// The bytes of a table's image.
pub const IMAGE: usize = 128;

// By hand: the kit's `hex` answers a Result, which cannot fail here.
fn hex_digit(x: u8) -> u8
    requires { x < 16 }
    ensures { result ≡ hex_digit x }
{
    if x < 10 { b'0' + x } else { b'a' + (x - 10) }
}

fn put_hex(line: &mut Writer, bytes: &[u8])
    requires { line.old.at + 2 * length bytes.now ≤ length line.old.out.now }
    ensures { Writes line.old line.new (hex_text bytes.now) }
{
    for byte in bytes {
        line.bytes(&[hex_digit(*byte / 16), hex_digit(*byte % 16)]);
    }
}

// A blank and a number.
fn put_number(line: &mut Writer, n: usize)
    requires { line.old.at + 21 ≤ length line.old.out.now }
    ensures text { Writes line.old line.new (codes " " ++ decimal n) }
    ensures within { line.new.at ≤ line.old.at + 21 }
{
    line.byte(b' ');
    line.decimal(n);
}

// Numbers, each behind a blank, and the line's end.
fn put_numbers(line: &mut Writer, numbers: &[usize])
    requires { line.old.at + 21 * length numbers.now + 1 ≤ length line.old.out.now }
    ensures { Writes line.old line.new (numbers_text numbers.now) }
{
    for n in numbers {
        put_number(line, *n);
    }
    line.byte(b'\n');
}

// Each of these writes an answer line at the front of the buffer, and answers how many bytes it wrote.

fn write_line(out: &mut [u8; ANSWER], word: &[u8], numbers: &[usize]) -> usize
    requires { length word.now + 21 * length numbers.now + 1 ≤ answer_bytes }
    ensures { Wrote out.old out.new 0 result (word.now ++ numbers_text numbers.now) }
{
    let mut line = Writer { out, at: 0 };
    line.bytes(word);
    put_numbers(&mut line, numbers);
    line.at
}

pub fn write_ok(out: &mut [u8; ANSWER]) -> usize
    ensures { Wrote out.old out.new 0 result (ok_text []) }
{
    write_line(out, b"ok", &[])
}

pub fn write_ok_one(out: &mut [u8; ANSWER], n: usize) -> usize
    ensures { Wrote out.old out.new 0 result (ok_text (n ∷ [])) }
{
    write_line(out, b"ok", &[n])
}

pub fn write_ok_three(out: &mut [u8; ANSWER], first: usize, second: usize, third: usize) -> usize
    ensures { Wrote out.old out.new 0 result (ok_text (first ∷ second ∷ third ∷ [])) }
{
    write_line(out, b"ok", &[first, second, third])
}

pub fn write_ok_image(out: &mut [u8; ANSWER], image: &[u8; IMAGE]) -> usize
    ensures { Wrote out.old out.new 0 result (image_text image.now) }
{
    let mut line = Writer { out, at: 0 };
    line.bytes(b"ok ");
    put_hex(&mut line, image);
    line.byte(b'\n');
    line.at
}

pub fn write_no(out: &mut [u8; ANSWER], reason: Reason, place: usize) -> usize
    ensures { Wrote out.old out.new 0 result (no_text reason place) }
{
    write_line(out, b"no", &[reason.number() as usize, place])
}
