// The manager: the calls of a fabric as values, and the one call that performs them, with the guarantee that every history of them keeps.
#![tactic(auto)]

pub mod asking;
pub mod call;
pub mod performing;
pub mod shown;
