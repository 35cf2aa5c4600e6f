// The slots that a book gives, and how many of them a change of the book changes.
ghost use Rattle.std.specs.Prelude.{◌≡◌, ◌+◌, ◌-◌, ◌%◌, ◌^◌, ◌≤◌, true, length, if◌then◌else◌, Some, nat_lt};
ghost use Rattle.table.specs.Slots.{bits};
ghost use Rattle.book.specs.Slots.{slot_for, carried, Lays, contents, changed_slots};
ghost use Rattle.book.specs.Standing.{Standing};

use crate::session::Session;
use table::rank::{SLOTS, reverse};
use table::service::weight_at;
use table::slot::Slot;

// What the slot of a rank holds for the session that holds the rank.
fn slot_for(rank: usize, session: Session) -> Slot
    requires { carried (Some session) ≡ true }
    ensures { result ≡ slot_for rank (Some session) }
{
    weight_at(session.grant(), session.size as usize, rank).map_or(
        Slot::empty(),
        |weight| Slot {
            lane: session.lane,
            weight,
        },
    )
}

// Writes the slots of the ranks from `first` on, `size` of them: one slot for the first `count` ranks, another for those behind.
fn lay_ranks(table: &mut [Slot], first: usize, size: usize, count: usize, below: Slot, behind: Slot)
    requires long { length table.old ≡ 2 ^ bits }
    requires within { first + size ≤ 2 ^ bits }
    ensures { Lays bits table.old table.new first size (λ r. (if nat_lt (r - first) count then below else behind)) }
{
    // By rank: the slots of a row of ranks lie in no order of the table.
    for k in 0..size {
        table[reverse(first + k)] = if k < count { below } else { behind };
    }
}

// Writes the slots of a session whose set begins at a rank: the first of its ranks carry one unit more than the others.
fn lay(table: &mut [Slot], first: usize, session: Session)
    requires long { length table.old ≡ 2 ^ bits }
    requires carried { carried (Some session) ≡ true }
    requires set { first % session.size ≡ 0 }
    requires within { first + session.size ≤ 2 ^ bits }
    ensures { Lays bits table.old table.new first session.size (λ r. slot_for r (Some session)) }
{
    let size = session.size as usize;
    let more = session.grant() as usize % size;
    let heavy = slot_for(first, session);
    let light = slot_for(first + size - 1, session);
    lay_ranks(table, first, size, more, heavy, light);
}

// The slots of a whole table: each is for the session that holds its rank.
pub(crate) fn slots_of(book: &[Option<Session>]) -> [Slot; SLOTS]
    requires { Standing bits book.now }
    ensures { result ≡ contents bits book.now }
{
    let mut table = [Slot::empty(); SLOTS];
    for (first, entry) in book.iter().enumerate() {
        if let Some(session) = entry {
            lay(&mut table, first, *session);
        }
    }
    table
}

// How many slots differ from one table to another.
pub fn differences(old: &[Slot; SLOTS], new: &[Slot; SLOTS]) -> usize
    ensures { result ≡ changed_slots old.now new.now }
{
    old.iter().zip(new).filter(|(old, new)| old != new).count()
}
