ghost use Rattle.std.specs.Prelude.{◌≡◌};
ghost use Rattle.lanes.specs.Captures.{captured};
ghost use Rattle.lanes.specs.CaptureQueues.{capture_queues};
ghost use Rattle.lanes.specs.Records.{captures_fit};

use crate::capture::{find, length_of};
use crate::capture_lanes::CaptureLanes;
use crate::lanes::Lanes;
use crate::refused::{place_of, refused};
use table::refusal::{Reason, Refusal};

impl<'a> CaptureLanes<'a> {
    // The packets that stand in `bytes`, none of them taken.
    pub fn new(bytes: &'a [u8]) -> CaptureLanes<'a>
        ensures { capture_queues result ≡ captured bytes.now }
    {
        CaptureLanes {
            bytes,
            next: [0; 15],
        }
    }
}

impl<'a> Lanes for CaptureLanes<'a> {
    ghost queues = { capture_queues };

    ghost fits = { λ l. captures_fit l.bytes.now l.next };

    fn first(&self, lane: u8) -> Result<Option<u16>, Refusal> {
        let place = place_of(lane)?;
        let first = find(self.bytes, self.next[place], lane);
        Ok(first.map(|k| length_of(self.bytes, k)))
    }

    fn take(&mut self, lane: u8) -> Result<u16, Refusal> {
        let place = place_of(lane)?;
        let first = find(self.bytes, self.next[place], lane);
        let k = first.ok_or(refused(Reason::NoPacket))?;
        self.next[place] = k + 1;
        Ok(length_of(self.bytes, k))
    }
}
