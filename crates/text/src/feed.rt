// A text's first line, without its line feed, and what comes after it.
#[derive(Clone, Copy)]
pub struct FirstLine<'a> {
    pub line: &'a [u8],
    pub rest: &'a [u8],
}

// The lines of a text that are still to come. (The static library's commands are such an iterator too, of other items by another definition.)
#[derive(Clone, Copy)]
pub struct Lines<'a> {
    pub(crate) rest: &'a [u8],
}
