use table::rank::SLOTS;
pub use table::slot::LANES;
use table::slot::Slot;

// A bank has at most so many ports.
pub const MOST_PORTS: usize = 16;

// One port: open or shut, with the slots of its table.
#[derive(Clone, Copy, PartialEq, Eq, Debug)]
pub struct Port {
    pub open: bool,
    pub slots: [Slot; SLOTS],
}
