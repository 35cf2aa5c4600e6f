ghost use Rattle.std.specs.Prelude.{◌≡◌};
ghost use Rattle.text.specs.Commands.{numbers_in};
ghost use Rattle.text.specs.Cursor.{to_come};
ghost use Rattle.text.specs.Gathered.{gathered, kept};

use crate::field::Field;
use crate::fields::Fields;
use crate::numbers::{Given, Numbers};
use crate::refuse::refuse;
use table::refusal::{Reason, Refusal};

// The numbers that the fields are, unless one of them is none. What comes after the kept ones is dropped.
pub(crate) fn gather(rest: Fields) -> Result<Numbers, Refusal>
    ensures { gathered result ≡ kept (numbers_in (to_come rest.entry)) }
{
    let mut numbers = Numbers::empty(Given { value: 0, place: 0 });
    for field in rest {
        match field {
            Field::Number(value, place) => {
                if !numbers.is_full() {
                    numbers.push(Given { value, place });
                }
            }
            Field::Word(_, place) | Field::Stray(_, place) => {
                return Err(refuse(Reason::NotANumber, place));
            }
        }
    }
    Ok(numbers)
}
