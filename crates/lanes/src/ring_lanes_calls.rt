ghost use Rattle.std.specs.Prelude.{◌≡◌};
ghost use Rattle.lanes.specs.Queues.{no_packets, arrive_answer, arrive_after};
ghost use Rattle.lanes.specs.OneLane.{lane_room};
ghost use Rattle.lanes.specs.RingQueues.{ring_queues};

use crate::lanes::Lanes;
use crate::packet::is_packet;
use crate::refused::{place_of, refused};
use crate::ring::Ring;
pub use crate::ring_lanes::LANE_ROOM;
use crate::ring_lanes::RingLanes;
use std::array;
use table::refusal::{Reason, Refusal};

impl RingLanes {
    // Lanes in which no packet waits.
    pub fn new() -> RingLanes
        ensures { ring_queues result ≡ no_packets }
    {
        RingLanes {
            lanes: array::from_fn(|_| Ring::new()),
        }
    }

    // A packet of so many bytes joins a lane, at the end.
    pub fn arrive(&mut self, lane: u8, bytes: u16) -> Result<(), Refusal>
        ensures answer { result ≡ arrive_answer lane_room (ring_queues self.old) lane bytes }
        ensures after { ring_queues self.new ≡ arrive_after lane_room (ring_queues self.old) lane bytes }
    {
        let place = place_of(lane)?;
        if !is_packet(bytes) {
            return Err(refused(Reason::BadLength));
        }
        let ring = &mut self.lanes[place];
        if ring.is_full() {
            return Err(refused(Reason::LaneFull));
        }
        ring.push(bytes);
        Ok(())
    }
}

impl Lanes for RingLanes {
    ghost queues = { ring_queues };

    ghost fits = { λ l. l.fit };

    fn first(&self, lane: u8) -> Result<Option<u16>, Refusal> {
        let place = place_of(lane)?;
        Ok(self.lanes[place].front())
    }

    fn take(&mut self, lane: u8) -> Result<u16, Refusal> {
        let place = place_of(lane)?;
        let front = self.lanes[place].pop_front();
        front.ok_or(refused(Reason::NoPacket))
    }
}
