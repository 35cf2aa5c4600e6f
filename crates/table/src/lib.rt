// One port's arbitration table: its slots, their ranks, and what a service level buys in it.
#![tactic(auto)]

pub mod rank;
pub mod refusal;
pub mod service;
pub mod slot;
