// Runs one script over both makes of bank, and one over both makes of lanes. The two texts of each pair are the same.
#![tactic(auto)]

mod answers;
mod bank_script;
mod lanes_script;

use crate::bank_script::{counts, serve_bank};
use crate::lanes_script::{CAPTURE, fill, full_lane, no_capture, serve_lanes};
use bank::image_bank::ImageBank;
use bank::record::RecordBank;
use lanes::capture_lanes::CaptureLanes;
use lanes::ring_lanes::RingLanes;
use std::io;

// Both makes of bank.
fn banks(rt: &HostRuntime) -> io::Result<()> {
    println!(rt; "record bank")?;
    counts(rt, &RecordBank::new(0), &RecordBank::new(17))?;
    serve_bank(rt, &mut RecordBank::new(2))?;
    println!(rt; "image bank")?;
    counts(rt, &ImageBank::new(0), &ImageBank::new(17))?;
    serve_bank(rt, &mut ImageBank::new(2))
}

// Both makes of lanes, with the same packets.
fn lanes(rt: &HostRuntime) -> io::Result<()> {
    let mut ring = RingLanes::new();
    println!(rt; "arrivals at ring lanes")?;
    fill(rt, &mut ring)?;
    println!(rt; "ring lanes")?;
    serve_lanes(rt, &mut ring)?;
    println!(rt; "capture lanes")?;
    serve_lanes(rt, &mut CaptureLanes::new(&CAPTURE))
}

fn main(rt: HostRuntime) -> io::Result<()> {
    banks(&rt)?;
    lanes(&rt)?;
    full_lane(&rt)?;
    no_capture(&rt)
}
