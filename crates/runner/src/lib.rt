// The manager behind two functions on bytes, for programs in other languages: call scripts and day sheets. bench/README.md has the format of scripts.
#![tactic(auto)]

mod answers;
pub mod exported;
#[cfg(test)]
mod runs;
mod script;
mod world;
