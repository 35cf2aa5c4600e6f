ghost use Rattle.std.specs.Prelude.{◌≡◌, Ok, nat_lt};
ghost use Rattle.table.specs.Refusals.{refusal};
ghost use Rattle.table.specs.Slots.{lane_count};
ghost use Rattle.table.specs.declared.refusal.Layer.TheVariants.{Lanes};
ghost use Rattle.table.specs.declared.refusal.Reason.TheVariants.{NoSuchLane};
ghost use Rattle.lanes.specs.Queues.{asked};

use crate::lanes::LANES;
use table::refusal::{Layer, Reason, Refusal};

// A refusal that lanes found. It names no place.
pub(crate) fn refused(reason: Reason) -> Refusal
    ensures { result ≡ refusal Lanes reason 0 }
{
    Refusal::new(Layer::Lanes, reason, 0)
}

// The place of a lane among the lanes, if there is such a lane.
pub(crate) fn place_of(lane: u8) -> Result<usize, Refusal>
    ensures { result ≡ asked (nat_lt lane lane_count) NoSuchLane (Ok lane) }
{
    if lane < LANES {
        Ok(lane as usize)
    } else {
        Err(refused(Reason::NoSuchLane))
    }
}
