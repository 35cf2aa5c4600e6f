ghost use Rattle.std.specs.Prelude.{◌≡◌, ℕ, List};
ghost use Rattle.lanes.specs.Queues.{LanesFit, first_answer, take_answer, after_take};

use table::refusal::Refusal;
pub use table::slot::LANES;

// The lanes of one port. The lane is asked first, and then, for a take, that a packet waits. A refusal changes nothing.
pub trait Lanes {
    // For each lane the lengths of the packets that wait in it, the first first: all that lanes mean.
    ghost queues: { Self → List (List ℕ) };

    // The length of the packet that waits first, if any does.
    fn first(&self, lane: u8) -> Result<Option<u16>, Refusal>
        ensures { result ≡ first_answer (queues self.now) lane };

    // Removes the first packet and answers its length. The other lanes stay.
    fn take(&mut self, lane: u8) -> Result<u16, Refusal>
        ensures answer { result ≡ take_answer (queues self.old) lane }
        ensures after { queues self.new ≡ after_take (queues self.old) lane };

    ghost fits: { (l : Self) → LanesFit (queues l) };
}
