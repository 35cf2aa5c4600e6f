use crate::path::MOST_PORTS;
use crate::row::Row;

// How many numbers of a line are kept: one more than any form takes.
pub const KEPT: usize = 4 + MOST_PORTS;

// A number of a line, with its place.
#[derive(Clone, Copy, PartialEq, Eq, Debug)]
pub struct Given {
    pub value: u32,
    pub place: usize,
}

// The first numbers of a line.
pub type Numbers = Row<Given, KEPT>;
