ghost use Rattle.std.specs.Prelude.{◌≡◌};
ghost use Rattle.text.specs.Bytes.{class_of};
ghost use Rattle.text.specs.Parts.{part};
ghost use Rattle.text.specs.Tokens.{all_letters, is_letter, token_of, told};

use crate::bytes::{Class, class_of};
use crate::number::number;

// A field of a line with its byte place: a word of small letters, a number, or anything else.
#[derive(Clone, Copy)]
pub enum Field<'a> {
    Word(&'a [u8], usize),
    Number(u32, usize),
    Stray(&'a [u8], usize),
}

fn is_letter(byte: u8) -> bool
    ensures { result ≡ is_letter (class_of byte) }
{
    class_of(byte) == Class::Letter
}

fn all_letters(text: &[u8]) -> bool
    ensures { result ≡ all_letters text.now }
{
    text.iter().all(|byte| is_letter(*byte))
}

// The field that the bytes `text` at `place` are.
pub(crate) fn read_field<'a>(text: &'a [u8], place: usize) -> Field<'a>
    ensures { told result ≡ token_of (part place text.now) }
{
    if let Some(n) = number(text) {
        return Field::Number(n, place);
    }
    if !text.is_empty() && all_letters(text) {
        Field::Word(text, place)
    } else {
        Field::Stray(text, place)
    }
}
