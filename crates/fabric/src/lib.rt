// The fabric: one book and one pointer for each port of a bank, and the calls that planners make.
#![tactic(auto)]

mod changing;
pub mod declined;
pub mod fabric;
pub mod picked;
pub mod picking;
mod program;
mod questions;
pub mod releasing;
pub mod reserving;
pub mod shutting;
pub mod starting;
