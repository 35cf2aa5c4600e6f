// Free sets among the ranks of a table.
ghost use Rattle.std.specs.Prelude.{◌≡◌, ℕ, ◌+◌, ◌*◌, ◌/◌, ◌^◌, ◌<◌, ◌≤◌};
ghost use Rattle.table.specs.Slots.{bits};
ghost use Rattle.book.specs.FreeSets.{around_by, loose_by, lowest_by, other_by, whole_by};
ghost use Rattle.book.specs.Searches.{count};
ghost use Rattle.book.specs.Bits.{part, free_bits};
ghost use Rattle.book.specs.RankSets.{Found};

use crate::rank_set::RankSet;
use table::rank::{BITS, SLOTS};

// The ranks that sessions hold: bit r is 1 where rank r is held.
#[derive(Clone, Copy)]
pub(crate) struct HeldRanks {
    pub(crate) bits: u64,
}

impl HeldRanks {
    // The held ranks of a set, as bits from its first rank on.
    pub(crate) fn part(self, set: RankSet) -> u64
        ensures { result ≡ part self.bits (set.index * 2 ^ set.level) (2 ^ set.level) }
    {
        // By shifts and not by the set's mask, which took a release with its fill-in from 1.08 s to 1.40 s for two million.
        let others = SLOTS - set.size();
        self.bits >> set.first() << others >> others
    }

    // Whether a set is free.
    pub(crate) fn is_free(self, set: RankSet) -> bool
        ensures { result ≡ free_bits bits self.bits set.level set.index }
    {
        self.part(set) == 0
    }

    // How many ranks are free.
    pub(crate) fn free_count(self) -> usize
        ensures { result ≡ count (free_bits bits self.bits 0) (2 ^ bits) }
    {
        self.bits.count_zeros() as usize
    }

    // The lowest free set of this level.
    pub(crate) fn lowest(self, level: u32) -> Option<RankSet>
        requires { level ≤ bits }
        ensures { Found level (lowest_by bits (free_bits bits self.bits) level) result }
    {
        (0..SLOTS >> level)
            .map(|index| RankSet::at(level, index))
            .find(|&set| self.is_free(set))
    }

    // Whether a set is free and in no larger free set.
    fn is_whole(self, set: RankSet) -> bool
        ensures { result ≡ whole_by (free_bits bits self.bits) set.level set.index }
    {
        self.is_free(set) && (set.level == BITS || !self.is_free(set.doubled()))
    }

    // The whole free set around a free one.
    pub(crate) fn whole_around(self, set: RankSet) -> RankSet
        ensures { (result.level, result.index) ≡ around_by bits (free_bits bits self.bits) set.level set.index }
    {
        let mut whole = set;
        while whole.level < BITS && self.is_free(whole.doubled()) {
            whole = whole.doubled();
        }
        whole
    }

    // Another whole free set of this level than that of an index.
    // A chain of its own beside `lowest`: one function over the test would need a contract about closures.
    pub(crate) fn other_whole(self, level: u32, index: usize) -> Option<RankSet>
        requires { level ≤ bits }
        ensures { Found level (other_by bits (free_bits bits self.bits) level index) result }
    {
        (0..SLOTS >> level)
            .map(|other| RankSet::at(level, other))
            .find(|&set| set.index != index && self.is_whole(set))
    }

    // The rightmost free rank outside of the free sets of this level: it is in the rightmost smaller whole free set.
    pub(crate) fn loose_rank(self, level: u32) -> Option<usize>
        requires { level ≤ bits }
        ensures { result ≡ loose_by bits (free_bits bits self.bits) level }
    {
        (0..SLOTS).rev().find(|&rank| {
            self.is_free(RankSet::around(rank, 0)) && !self.is_free(RankSet::around(rank, level))
        })
    }
}
