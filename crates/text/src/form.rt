ghost use Rattle.std.specs.Prelude.{◌≡◌};
ghost use Rattle.text.specs.Commands.{form_of, fewest, most};

use crate::path::MOST_PORTS;

// The form of a line, by its first word.
#[derive(Clone, Copy, PartialEq, Eq, Debug)]
pub enum Form {
    Reserve,
    Release,
    Shut,
    Reopen,
    Table,
}

impl Form {
    // An Option: the error of a `TryFrom` would say nothing.
    pub(crate) fn of(word: &[u8]) -> Option<Form>
        ensures { result ≡ form_of word.now }
    {
        match word {
            b"reserve" => Some(Form::Reserve),
            b"release" => Some(Form::Release),
            b"shut" => Some(Form::Shut),
            b"reopen" => Some(Form::Reopen),
            b"table" => Some(Form::Table),
            _ => None,
        }
    }

    // The fewest numbers that follow the word.
    pub(crate) fn fewest(self) -> usize
        ensures { result ≡ fewest self }
    {
        match self {
            Form::Reserve => 4,
            _ => 1,
        }
    }

    // The most numbers that follow the word.
    pub(crate) fn most(self) -> usize
        ensures { result ≡ most self }
    {
        match self {
            Form::Reserve => 3 + MOST_PORTS,
            _ => 1,
        }
    }
}
