ghost use Rattle.std.specs.Prelude.{◌≡◌};
ghost use Rattle.text.specs.Parts.{parts_of, Cut};
ghost use Rattle.text.specs.Tokens.{tokens_of};
ghost use Rattle.text.specs.Cursor.{to_come, Step, most_fields};
ghost use Rattle.std.specs.Iterator.{at_most};

use crate::bytes::bytes_before;
use crate::field::{Field, read_field};
use crate::fields::Fields;

// The fields of a line, which joined by blanks are the line again.
pub fn fields<'a>(line: &'a [u8]) -> Fields<'a>
    ensures all { to_come result ≡ tokens_of line.now }
    ensures cuts { Cut line.now (parts_of line.now) }
{
    Fields {
        line,
        next: Some(0),
    }
}

impl<'a> Iterator for Fields<'a> {
    type Item = Field<'a>;

    ghost remaining = { λ s. at_most (most_fields s) };

    ghost next_gives = { Step };

    fn next(&mut self) -> Option<Field<'a>> {
        let at = self.next?;
        let rest = &self.line[at..];
        let n = bytes_before(rest, b' ');
        self.next = if n < rest.len() {
            Some(at + n + 1)
        } else {
            None
        };
        Some(read_field(&rest[0..n], at))
    }
}
