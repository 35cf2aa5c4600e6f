use crate::row::Row;

// The most ports that a path has.
pub const MOST_PORTS: usize = 8;

// The ports of a path, in its order.
pub type Path = Row<usize, MOST_PORTS>;
