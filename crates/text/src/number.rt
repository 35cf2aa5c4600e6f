ghost use Rattle.std.specs.Prelude.{◌≡◌, ◌≤◌};
ghost use Rattle.text.specs.Numbers.{digits_from, number_of, most, Spells};

use crate::bytes::{Class, class_of};

// The highest number that a line can hold.
const MOST: u32 = 65535;

// The number that `text` goes on to spell after digits that came to `sum`.
fn digits_from(sum: u32, text: &[u8]) -> Option<u32>
    requires { sum ≤ most }
    ensures { result ≡ digits_from sum text.now }
{
    let [first, rest @ ..] = text else {
        return Some(sum);
    };
    if class_of(*first) != Class::Digit {
        return None;
    }
    let next = sum * 10 + (*first - b'0') as u32;
    if next > MOST {
        return None;
    }
    digits_from(next, rest)
}

// The number that `text` spells: no zero in front but for 0 alone, and at most `MOST`.
// By hand: the library's `parse` takes signs and zeros in front.
fn spelled(text: &[u8]) -> Option<u32>
    ensures { result ≡ number_of text.now }
{
    match text {
        [] => None,
        [b'0'] => Some(0),
        [b'0', ..] => None,
        _ => digits_from(0, text),
    }
}

// The number that a field's bytes are: some number just where they are its decimal spelling.
pub fn number(text: &[u8]) -> Option<u32>
    ensures value { result ≡ number_of text.now }
    ensures spells { Spells text.now result }
{
    spelled(text)
}
