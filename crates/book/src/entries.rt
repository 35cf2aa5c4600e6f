// The entries of a book, with the ranks that they hold.
ghost use Rattle.std.specs.Prelude.{◌≡◌, ℕ, ◌*◌, ◌^◌, ◌<◌, ◌≤◌, ◌≢◌, ◌+◌, ◌⊎◌, length, None, slice_set};
ghost use Rattle.table.specs.Slots.{bits, slots};
ghost use Rattle.book.specs.Entries.{Ranks, is_number, level_for, place_of, size_at};
ghost use Rattle.book.specs.Bits.{held_bits};
ghost use Rattle.book.specs.Standing.{Seated};
ghost use Rattle.book.specs.Levels.{FreeIn, Free, Beside};
ghost use Rattle.book.specs.Moves.{exchanged, exchanged_sets, loose_rank, other_whole, whole_around};
ghost use Rattle.book.specs.RankSets.{Found};

use crate::rank_set::{RankSet, level_of};
use crate::ranks::HeldRanks;
use crate::session::Session;
use std::marker::Model;
use table::rank::SLOTS;

// The entries of a book while a release moves them: entry f holds the session whose set begins at rank f, and the sessions hold disjoint sets.
#[derive(Clone, Copy)]
pub(crate) struct Entries {
    pub(crate) sessions: [Option<Session>; SLOTS],
    held: HeldRanks,
}

impl Model for Entries {
    ghost use Rattle.std.specs.Prelude.{◌≡◌};
    ghost use Rattle.std.proofs.Common.{sym};
    ghost use Rattle.table.specs.Slots.{bits};
    ghost use Rattle.book.specs.Entries.{Ranks};
    ghost use Rattle.book.specs.Standing.{Seated};
    ghost use Rattle.book.specs.Bits.{held_bits};

    ghost Value = { Ranks };

    ghost view = { λ e. e.sessions };

    ghost invariant = { λ e. Seated bits e.sessions × (e.held.bits ≡ held_bits bits e.sessions) };

    ghost inverse = { λ xs. record { sessions = xs; held = record { bits = held_bits bits xs } } };

    ghost inverse_ok = { λ a h i. record { sessions = a.sessions; held = record { bits = sym h.1 i } } };
}

// Whether an entry is the session of this number.
fn is_number(number: u16, entry: Option<Session>) -> bool
    ensures { result ≡ is_number number entry }
{
    entry.is_some_and(|session| session.number == number)
}

// The rank at which the set of the session of this number begins.
// A search, since a map by number would allocate.
pub(crate) fn find(sessions: &[Option<Session>], number: u16) -> Option<usize>
    ensures { result ≡ place_of number sessions.now }
{
    sessions.iter().position(|entry| is_number(number, *entry))
}

// Exchanges the ranks from `f` on with those from `g` on, `size` of them.
fn exchange(sessions: &mut [Option<Session>], f: usize, g: usize, size: usize)
    requires left_in { f + size ≤ length sessions.old }
    requires right_in { g + size ≤ length sessions.old }
    requires apart { (f + size ≤ g) ⊎ (g + size ≤ f) }
    ensures { sessions.new ≡ exchanged sessions.old f g size }
{
    // One by one: `swap_with_slice` would want the slice split, and the lower block told from the upper.
    for k in 0..size {
        sessions.swap(f + k, g + k);
    }
}

impl Entries {
    // The entries of a book, with the ranks that they hold.
    pub(crate) fn of(sessions: &[Option<Session>; SLOTS], held: HeldRanks) -> Entries
        requires seated { Seated bits sessions.now }
        requires taken { held.bits ≡ held_bits bits sessions.now }
        ensures { result ≡ sessions.now }
    {
        Entries {
            sessions: *sessions,
            held,
        }
    }

    // The entries themselves.
    pub(crate) fn sessions(&self) -> &[Option<Session>; SLOTS]
        ensures { result.now ≡ self.now }
    {
        &self.sessions
    }

    // The ranks that they hold.
    pub(crate) fn held(&self) -> HeldRanks
        ensures { result.bits ≡ held_bits bits self.now }
    {
        self.held
    }

    // The level of the set that begins at a rank, if one does.
    pub(crate) fn level_at(&self, at: usize) -> Option<u32>
        requires { at < slots }
        ensures { result ≡ level_for bits (size_at self.now at) }
    {
        self.sessions[at].and_then(|session| level_of(session.size as usize))
    }

    // Another whole free set of this level than that of an index.
    pub(crate) fn other_whole(&self, level: u32, index: usize) -> Option<RankSet>
        requires { level ≤ bits }
        ensures found { Found level (other_whole bits self.now level index) result }
        ensures seated { Seated bits self.now }
    {
        self.held.other_whole(level, index)
    }

    // The whole free set around a free one.
    pub(crate) fn whole_around(&self, set: RankSet) -> RankSet
        ensures { (result.level, result.index) ≡ whole_around bits self.now set.level set.index }
    {
        self.held.whole_around(set)
    }

    // The rightmost free rank outside of the free sets of this level.
    pub(crate) fn loose_rank(&self, level: u32) -> Option<usize>
        requires { level ≤ bits }
        ensures { result ≡ loose_rank bits self.now level }
    {
        self.held.loose_rank(level)
    }

    // Ends the session that holds a set.
    pub(crate) fn remove(&mut self, set: RankSet)
        requires { size_at self.old (set.index * 2 ^ set.level) ≡ 2 ^ set.level }
        ensures { self.new ≡ slice_set self.old (set.index * 2 ^ set.level) None }
    {
        self.sessions[set.first()] = None;
        self.held.bits -= set.mask();
    }

    // Exchanges a free set with another one of its level, which has a free rank beside it.
    pub(crate) fn exchange_sets(&mut self, p: RankSet, q: RankSet)
        requires level { q.level ≡ p.level }
        requires free { Free (FreeIn bits self.old) p.level p.index }
        requires beside { Beside bits self.old p.level q.index }
        requires apart { p.index ≢ q.index }
        ensures { self.new ≡ exchanged_sets self.old p.level p.index q.index }
    {
        let f = p.first();
        let g = q.first();
        let moved = self.held.part(q);
        exchange(&mut self.sessions, f, g, p.size());
        self.held.bits = self.held.bits - (moved << g) + (moved << f);
    }
}
