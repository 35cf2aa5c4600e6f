ghost use Rattle.std.proofs.Props.{props};
ghost use Rattle.lanes.specs.Queues.{LanesFit};

use crate::ring::Ring;

// A lane has room for so many packets.
pub const LANE_ROOM: usize = 16;

// Lanes that hold up to sixteen packets each.
#[derive(Drop)]
pub struct RingLanes {
    pub(crate) lanes: [Ring<u16, LANE_ROOM>; 15],
    ghost fit: { LanesFit lanes } by { Prim.hlevel props },
}
