// Banks of ports: what a bank means, the images of its tables, and the banks that are made.
#![tactic(auto)]

pub mod bank;
pub mod image;
pub mod image_bank;
pub mod image_banks;
pub mod image_port;
mod kept_port;
pub mod port;
mod port_bank;
mod port_banks;
pub mod record;
pub mod records;
mod refused;
