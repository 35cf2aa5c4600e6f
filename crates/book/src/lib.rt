// The book of one port: which sessions hold which ranks of its table, where a new one goes, and what moves when one ends.
#![tactic(auto)]

pub mod book;
pub mod books;
mod entries;
mod moves;
mod rank_set;
mod ranks;
pub mod session;
pub mod slots;
