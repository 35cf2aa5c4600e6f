// Day sheets: each line's command is carried out on a fabric, and its answer written as text.
#![tactic(auto)]

pub mod answering;
pub mod reply;
pub mod sheet;
