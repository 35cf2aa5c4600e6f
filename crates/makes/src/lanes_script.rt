// One script for every make of lanes.
use crate::answers::{Waiting, tell};
use lanes::capture_lanes::CaptureLanes;
use lanes::lanes::Lanes;
use lanes::ring_lanes::RingLanes;
use std::fmt::Display;
use std::{fmt, io};

// Calls as values, since they stand in a constant table and are printed.
#[derive(Clone, Copy)]
enum LanesCall {
    First(u8),
    Take(u8),
}

const SCRIPT: [LanesCall; 21] = [
    LanesCall::First(0),
    LanesCall::First(0),
    LanesCall::Take(0),
    LanesCall::First(0),
    LanesCall::First(3),
    LanesCall::Take(3),
    LanesCall::Take(14),
    LanesCall::Take(0),
    LanesCall::Take(0),
    // The lane is empty now, and others are not.
    LanesCall::First(0),
    LanesCall::Take(0),
    LanesCall::First(3),
    LanesCall::Take(3),
    LanesCall::Take(3),
    LanesCall::First(14),
    // No packet joined this lane.
    LanesCall::First(1),
    LanesCall::Take(1),
    // There are no such lanes.
    LanesCall::First(15),
    LanesCall::Take(15),
    LanesCall::First(255),
    LanesCall::Take(255),
];

// Lane and length of each packet. Three of them cannot wait anywhere.
const PACKETS: [(u8, u16); 9] = [
    (0, 64),
    (3, 4096),
    (15, 100),
    (0, 1),
    (14, 1500),
    (1, 0),
    (3, 65),
    (1, 4097),
    (0, 2048),
];

// The same packets: their count, their lanes, their lengths.
pub(crate) const CAPTURE: [u8; 29] = [
    // Nine packets.
    0, 9,
    // The lane of each.
    0, 3, 15, 0, 14, 1, 3, 1, 0,
    // The length of each, in two bytes.
    0, 64, 16, 0, 0, 100, 0, 1, 5, 220, 0, 0, 0, 65, 16, 1, 8, 0,
];

// A capture that announces one packet more than it has.
const CUT_SHORT: [u8; 5] = [0, 2, 0, 0, 64];

impl Display for LanesCall {
    fn fmt<W: fmt::Write>(&self, f: &mut fmt::Formatter<W>) -> fmt::Result {
        match self {
            LanesCall::First(lane) => write!(f, "first {lane}"),
            LanesCall::Take(lane) => write!(f, "take {lane}"),
        }
    }
}

fn serve_call<L: Lanes>(rt: &HostRuntime, lanes: &mut L, call: LanesCall) -> io::Result<()> {
    print!(rt; "{call}: ")?;
    match call {
        LanesCall::First(lane) => tell(rt, lanes.first(lane), |first| Waiting(first)),
        LanesCall::Take(lane) => tell(rt, lanes.take(lane), |bytes| bytes),
    }
}

// Runs the script.
pub(crate) fn serve_lanes<L: Lanes>(rt: &HostRuntime, lanes: &mut L) -> io::Result<()> {
    for call in &SCRIPT {
        serve_call(rt, lanes, *call)?;
    }
    Ok(())
}

fn tell_arrival(rt: &HostRuntime, ring: &mut RingLanes, lane: u8, bytes: u16) -> io::Result<()> {
    print!(rt; "arrive {lane} {bytes}: ")?;
    tell(rt, ring.arrive(lane, bytes), |()| "done")
}

// The packets join the lanes.
pub(crate) fn fill(rt: &HostRuntime, ring: &mut RingLanes) -> io::Result<()> {
    for (lane, bytes) in &PACKETS {
        tell_arrival(rt, ring, *lane, *bytes)?;
    }
    Ok(())
}

// A lane of a ring takes sixteen packets, and after a take one more.
pub(crate) fn full_lane(rt: &HostRuntime) -> io::Result<()> {
    println!(rt; "a full lane")?;
    let mut ring = RingLanes::new();
    for bytes in 1..17u16 {
        tell_arrival(rt, &mut ring, 2, bytes)?;
    }
    tell_arrival(rt, &mut ring, 2, 17)?;
    tell_arrival(rt, &mut ring, 4, 17)?;
    serve_call(rt, &mut ring, LanesCall::Take(2))?;
    tell_arrival(rt, &mut ring, 2, 18)
}

// Where the bytes do not fit their count, no packet waits.
pub(crate) fn no_capture(rt: &HostRuntime) -> io::Result<()> {
    println!(rt; "a capture cut short")?;
    serve_call(rt, &mut CaptureLanes::new(&CUT_SHORT), LanesCall::First(0))
}
