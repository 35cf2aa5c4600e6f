// How a release moves sessions: joining and ordering.
ghost use Rattle.std.specs.Prelude.{◌≡◌, ◌*◌, ◌^◌, ◌<◌, ◌≤◌, length};
ghost use Rattle.table.specs.Slots.{bits, slots};
ghost use Rattle.book.specs.Entries.{size_at};
ghost use Rattle.book.specs.Moves.{joined, ordered_at, ordered, released_set};
ghost use Rattle.book.specs.Standing.{Standing};
ghost use Rattle.book.specs.Levels.{FreeIn, Whole, Others};
ghost use Rattle.book.specs.Books.{released_at};

use crate::entries::Entries;
use crate::rank_set::RankSet;
use table::rank::{BITS, SLOTS};

impl Entries {
    // Joins whole free sets of one size, from a start set on, until all differ in size.
    fn join(&mut self, start: RankSet)
        requires whole { Whole (FreeIn bits self.old) start.level start.index }
        requires others { Others (FreeIn bits self.old) start.level start.index }
        ensures { self.new ≡ joined bits self.old start.level start.index }
    {
        let mut whole = start;
        while let Some(other) = self.other_whole(whole.level, whole.index) {
            self.exchange_sets(whole, other.brother());
            let around = other.doubled();
            whole = self.whole_around(around);
        }
    }

    // Moves the whole free set of this level to the right of the smaller ones.
    fn order_level(&mut self, level: u32)
        requires { level ≤ bits }
        ensures { self.new ≡ ordered_at bits self.old level }
    {
        // Another set than none: `ordered_at` names this index.
        let Some(whole) = self.other_whole(level, SLOTS) else {
            return;
        };
        let Some(rank) = self.loose_rank(level) else {
            return;
        };
        let loose = RankSet::around(rank, level);
        let is_left = whole.index < loose.index;
        if is_left {
            self.exchange_sets(whole, loose);
        }
    }

    // Brings whole free sets that differ in size into the order of their sizes, the largest first.
    fn order(&mut self)
        ensures { self.new ≡ ordered bits self.old }
    {
        for level in (0..BITS + 1).rev() {
            self.order_level(level);
        }
    }

    // Ends the session at a rank, whose set is of this level, and brings the free sets in order again.
    // What the entries keep between calls is asked here and is no invariant of theirs, since joining and ordering break it on the way.
    fn release_set(&mut self, level: u32, at: usize)
        requires stands { Standing bits self.old }
        requires size { size_at self.old at ≡ 2 ^ level }
        ensures { self.new ≡ released_set bits self.old level at }
    {
        let set = RankSet::around(at, level);
        self.remove(set);
        let start = self.whole_around(set);
        self.join(start);
        self.order();
    }

    // The same of a session of any level; where none begins at the rank, nothing is done.
    pub(crate) fn release_at(&mut self, at: usize)
        requires stands { Standing bits self.old }
        requires there { at < slots }
        ensures { self.new ≡ released_at bits self.old at }
    {
        if let Some(level) = self.level_at(at) {
            self.release_set(level, at);
        }
    }
}
