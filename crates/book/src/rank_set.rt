// Sets of ranks.
ghost use Rattle.std.specs.Prelude.{◌≡◌, ℕ, ◌+◌, ◌-◌, ◌*◌, ◌/◌, ◌^◌, ◌<◌, ◌≤◌};
ghost use Rattle.table.specs.Slots.{bits, slots};
ghost use Rattle.book.specs.Entries.{level_for};
ghost use Rattle.book.specs.Moves.{brother};

use table::rank::{BITS, SLOTS};

// A set of a table: the 2^level ranks from index * 2^level on.
#[derive(Clone, Copy)]
pub(crate) struct RankSet {
    pub(crate) level: u32,
    pub(crate) index: usize,
    ghost low: { level ≤ bits },
    ghost within: { index * 2 ^ level + 2 ^ level ≤ 2 ^ bits },
}

// How many ranks a set of this level has.
// A level is a plain number: it comes from a loop and goes into a shift, and a type of its own would be taken apart at each.
fn size_of(level: u32) -> usize
    requires { level ≤ bits }
    ensures { result ≡ 2 ^ level }
{
    1 << level
}

// The level of a set of so many ranks.
pub(crate) fn level_of(size: usize) -> Option<u32>
    ensures { result ≡ level_for bits size }
{
    (0..BITS + 1).find(|&level| size_of(level) == size)
}

impl RankSet {
    // The set of this level and index.
    pub(crate) fn at(level: u32, index: usize) -> RankSet
        requires low { level ≤ bits }
        requires within { index * 2 ^ level + 2 ^ level ≤ 2 ^ bits }
        ensures level { result.level ≡ level }
        ensures index { result.index ≡ index }
    {
        RankSet { level, index }
    }

    // The set of this level that holds a rank.
    pub(crate) fn around(rank: usize, level: u32) -> RankSet
        requires rank { rank < slots }
        requires low { level ≤ bits }
        ensures level { result.level ≡ level }
        ensures index { result.index ≡ rank / 2 ^ level }
    {
        RankSet {
            level,
            index: rank >> level,
        }
    }

    // How many ranks it has.
    pub(crate) fn size(self) -> usize
        ensures { result ≡ 2 ^ self.level }
    {
        size_of(self.level)
    }

    // Its first rank.
    pub(crate) fn first(self) -> usize
        ensures { result ≡ self.index * 2 ^ self.level }
    {
        self.index * self.size()
    }

    // Its ranks as bits.
    pub(crate) fn mask(self) -> u64
        ensures { result ≡ (2 ^ 2 ^ self.level - 1) * 2 ^ (self.index * 2 ^ self.level) }
    {
        u64::MAX >> (SLOTS - self.size()) << self.first()
    }

    // The set that together with this one is a set of double size.
    pub(crate) fn brother(self) -> RankSet
        requires { self.level < bits }
        ensures level { result.level ≡ self.level }
        ensures index { result.index ≡ brother self.index }
    {
        let index = if self.index % 2 == 0 {
            self.index + 1
        } else {
            self.index - 1
        };
        RankSet {
            level: self.level,
            index,
        }
    }

    // The set of double size around it.
    pub(crate) fn doubled(self) -> RankSet
        requires { self.level < bits }
        ensures level { result.level ≡ self.level + 1 }
        ensures index { result.index ≡ self.index / 2 }
    {
        RankSet {
            level: self.level + 1,
            index: self.index / 2,
        }
    }
}
