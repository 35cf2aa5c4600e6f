ghost use Rattle.std.specs.Prelude.{◌≡◌};
ghost use Rattle.table.specs.Slots.{bits};
ghost use Rattle.book.specs.Entries.{fits, grant_of};

use crate::rank_set::level_of;
use table::service::MOST_WEIGHT;
use table::slot::LANES;

// A session at a port: how many ranks it holds, and the lane and the weight asked that its slots serve.
#[derive(Clone, Copy, PartialEq, Eq, Debug)]
pub struct Session {
    pub number: u16,
    pub lane: u8,
    pub size: u8,
    pub weight: u16,
}

impl Session {
    // Whether a book takes it.
    pub(crate) fn fits(self) -> bool
        ensures { result ≡ fits bits self }
    {
        let size = self.size as usize;
        let weight = self.weight as usize;
        level_of(size).is_some()
            && 1 <= weight
            && weight <= MOST_WEIGHT as usize * size
            && self.lane < LANES
    }

    // The units that it is granted in all its slots.
    pub(crate) fn grant(self) -> u32
        ensures { result ≡ grant_of self }
    {
        (self.weight as u32).max(self.size as u32)
    }
}
