// The text of a day sheet: its lines and fields, what a line asks for, and how its answer is written.
#![tactic(auto)]

pub mod answer;
pub mod bytes;
pub mod command;
pub mod cut;
pub mod feed;
pub mod field;
pub mod fields;
mod form;
mod gather;
pub mod lines;
pub mod number;
mod numbers;
pub mod parse;
pub mod path;
pub mod put;
mod refuse;
pub mod row;
