ghost use Rattle.std.specs.Prelude.{◌≡◌};
ghost use Rattle.table.specs.Slots.{empty_slot, same_slot};

// A port carries so many lanes, numbered from 0.
pub const LANES: u8 = 15;

// One slot of a port's table: a virtual lane, and a weight in units of 64 bytes.
#[derive(Clone, Copy, PartialEq, Eq, Debug)]
pub struct Slot {
    pub lane: u8,
    pub weight: u8,
}

impl Slot {
    // The slot that no session holds.
    pub fn empty() -> Slot
        ensures { result ≡ empty_slot }
    {
        Slot { lane: 0, weight: 0 }
    }

    // Whether two slots have the same content.
    pub fn same(self, other: Slot) -> bool
        ensures { result ≡ same_slot self other }
    {
        self == other
    }
}
