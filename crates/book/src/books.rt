// The calls of a book.
ghost use Rattle.std.specs.Prelude.{◌≡◌, ◌≤◌, nat_le};
ghost use Rattle.table.specs.Slots.{bits};
ghost use Rattle.book.specs.Books.{empty_ranks, free_ranks, place_for, filled, released, holds, contents};
ghost use Rattle.book.specs.RankSets.{PutOn};
ghost use Rattle.book.specs.Standing.{Standing};
ghost use Rattle.book.specs.Laws.{FillLaw, Ended, RoomLaw, PlacedLaw};

use crate::book::Book;
use crate::entries::{Entries, find};
use crate::rank_set::{RankSet, level_of};
use crate::ranks::HeldRanks;
use crate::session::Session;
use crate::slots::slots_of;
use table::rank::SLOTS;
use table::slot::Slot;

impl Book {
    // A book without sessions.
    pub fn new() -> Book
        ensures { result.ranks ≡ empty_ranks bits }
    {
        Book {
            ranks: [None; SLOTS],
            held: HeldRanks { bits: 0 },
        }
    }

    // Whether so many ranks are free.
    pub fn has_room(&self, need: usize) -> bool
        ensures value { result ≡ nat_le need (free_ranks bits self.now.ranks) }
        ensures even { RoomLaw bits self.now.ranks need result }
    {
        need <= self.held.free_count()
    }

    // Whether the session of this number is in the book.
    pub fn holds(&self, number: u16) -> bool
        ensures { result ≡ holds number self.now.ranks }
    {
        self.held.bits != 0 && find(&self.ranks, number).is_some()
    }

    // The set where a session goes, if the book takes it and has a free set of its size.
    fn place_for(&self, session: Session) -> Option<RankSet>
        ensures { PutOn session (place_for bits self.now.ranks session) result }
    {
        if !session.fits() || find(&self.ranks, session.number).is_some() {
            return None;
        }
        self.held.lowest(level_of(session.size as usize)?)
    }

    // Puts a session onto the lowest free set of its size, and answers the set's first rank.
    pub fn fill_in(&mut self, session: Session) -> Option<usize>
        ensures place { result ≡ place_for bits self.old.ranks session }
        ensures after { self.new.ranks ≡ filled bits self.old.ranks session }
        ensures law { FillLaw bits self.old.ranks session result self.new.ranks }
    {
        let set = self.place_for(session)?;
        let first = set.first();
        self.ranks[first] = Some(session);
        self.held.bits += set.mask();
        Some(first)
    }

    // Ends the session of this number, and moves others until the free sets are in order again. Answers whether the book had it.
    pub fn release(&mut self, number: u16) -> bool
        ensures value { result ≡ holds number self.old.ranks }
        ensures after { self.new.ranks ≡ released bits self.old.ranks number }
        ensures law { Ended bits self.old.ranks number self.new.ranks }
    {
        let Some(at) = find(&self.ranks, number) else {
            return false;
        };
        let mut entries = Entries::of(&self.ranks, self.held);
        entries.release_at(at);
        *self = Book {
            ranks: *entries.sessions(),
            held: entries.held(),
        };
        true
    }

    // The slots that the book gives.
    pub fn contents(&self) -> [Slot; SLOTS]
        ensures value { result ≡ contents bits self.now.ranks }
        ensures placed { PlacedLaw bits self.now.ranks result }
        ensures standing { Standing bits self.now.ranks }
    {
        slots_of(&self.ranks)
    }
}
