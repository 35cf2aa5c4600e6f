// Writes to the bank just the slots of a port whose content changes.
ghost use Rattle.std.specs.Prelude.{◌≡◌, ◌≤◌, if◌then◌else◌};
ghost use Rattle.table.specs.Slots.{slots, same_slot};
ghost use Rattle.bank.specs.Ports.{write_after};
ghost use Rattle.book.specs.Books.{differ, changed_slots};
ghost use Rattle.fabric.specs.Changes.{programmed};

use bank::bank::Bank;
use table::rank::SLOTS;
use table::slot::Slot;

// Writes one slot where it changes. Answers how many were written.
fn write_changed<B: Bank>(bank: &mut B, port: usize, slot: usize, old: Slot, new: Slot) -> usize
    ensures count { result ≡ (if differ old new then 1 else 0) }
    ensures after { B.ports bank.new ≡ (if same_slot old new then B.ports bank.old else write_after (B.ports bank.old) port slot new) }
{
    if old.same(new) {
        return 0;
    }
    let _ = bank.write(port, slot, new);
    1
}

// Writes the slots of a port that change. Answers how many.
pub(crate) fn program<B: Bank>(
    bank: &mut B,
    port: usize,
    old: &[Slot; SLOTS],
    new: &[Slot; SLOTS],
) -> usize
    ensures count { result ≡ changed_slots old.now new.now }
    ensures most { result ≤ slots }
    ensures after { B.ports bank.new ≡ programmed port 0 old.now new.now (B.ports bank.old) }
{
    let mut written = 0;
    for (slot, (before, after)) in old.iter().zip(new).enumerate() {
        written += write_changed(bank, port, slot, *before, *after);
    }
    written
}
