// Lanes of a port: what they mean, and the lanes that are made.
#![tactic(auto)]

mod capture;
pub mod capture_lanes;
pub mod capture_lanes_calls;
pub mod lanes;
pub mod packet;
mod refused;
mod ring;
pub mod ring_lanes;
pub mod ring_lanes_calls;
