ghost use Rattle.std.specs.Prelude.{◌≡◌};
ghost use Rattle.text.specs.Lines.{lines_of, Sheet};
ghost use Rattle.text.specs.Feed.{split_of, split_by, lines_by, lines_left, bytes_left, Feeds};
ghost use Rattle.std.specs.Iterator.{at_most};

use crate::bytes::bytes_before;
use crate::feed::{FirstLine, Lines};

// The first line of a text, if it has one.
pub fn first_line<'a>(text: &'a [u8]) -> Option<FirstLine<'a>>
    ensures split { split_by result ≡ split_of text.now }
    ensures lines { lines_of text.now ≡ lines_by result }
{
    if text.is_empty() {
        return None;
    }
    let n = bytes_before(text, b'\n');
    // The last line may lack its line feed.
    let next = text.len().min(n + 1);
    Some(FirstLine {
        line: &text[0..n],
        rest: &text[next..],
    })
}

// The lines of a text, which with a line feed after each are the text again.
pub fn lines<'a>(text: &'a [u8]) -> Lines<'a>
    ensures all { lines_left result ≡ lines_of text.now }
    ensures again { Sheet text.now (lines_of text.now) }
{
    Lines { rest: text }
}

impl<'a> Iterator for Lines<'a> {
    type Item = &'a [u8];

    ghost remaining = { λ s. at_most (bytes_left s) };

    ghost next_gives = { Feeds };

    fn next(&mut self) -> Option<&'a [u8]> {
        let first = first_line(self.rest)?;
        self.rest = first.rest;
        Some(first.line)
    }
}
