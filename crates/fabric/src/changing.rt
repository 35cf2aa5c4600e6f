// A change of one port's book, with the slots that it writes.
ghost use Rattle.std.specs.Prelude.{◌≡◌, ◌≤◌, true, false};
ghost use Rattle.std.specs.Fn.{FnOnceReturnsAtMut};
ghost use Rattle.table.specs.Slots.{bits, slots};
ghost use Rattle.book.specs.Books.{filled, holds, released};
ghost use Rattle.fabric.specs.Changes.{IsWritten};

use crate::fabric::PortState;
use crate::program::program;
use bank::bank::Bank;
use book::book::Book;
use book::session::Session;

impl PortState {
    // The book changes, and just the slots that change are written. Answers how many.
    fn change<B: Bank, F: FnOnce(&mut Book)>(
        &mut self,
        bank: &mut B,
        port: usize,
        change: F,
    ) -> usize
        requires { F.IsAlwaysCallable change }
        ensures book { FnOnceReturnsAtMut F.FnOnce change self.old.book tt self.new.book }
        ensures written { IsWritten port result self.old self.new (B.ports bank.old) (B.ports bank.new) }
    {
        let old = self.book.contents();
        change(&mut self.book);
        program(bank, port, &old, &self.book.contents())
    }

    // A session is filled in. Answers how many slots changed.
    pub(crate) fn fill_in<B: Bank>(&mut self, bank: &mut B, port: usize, session: Session) -> usize
        ensures book { self.new.book.ranks ≡ filled bits self.old.book.ranks session }
        ensures written { IsWritten port result self.old self.new (B.ports bank.old) (B.ports bank.new) }
    {
        self.change(bank, port, |book| {
            book.fill_in(session);
        })
    }

    // The session ends, if the book holds it. Answers how many slots changed.
    pub(crate) fn release<B: Bank>(&mut self, bank: &mut B, port: usize, number: u16) -> usize
        ensures held { holds number self.old.book.ranks ≡ true → self.new.book.ranks ≡ released bits self.old.book.ranks number }
        ensures written { holds number self.old.book.ranks ≡ true → IsWritten port result self.old self.new (B.ports bank.old) (B.ports bank.new) }
        ensures most { result ≤ slots }
        ensures free { holds number self.old.book.ranks ≡ false → (result ≡ 0) × (self.new ≡ self.old) × (B.ports bank.new ≡ B.ports bank.old) }
    {
        if !self.book.holds(number) {
            return 0;
        }
        self.change(bank, port, |book| {
            book.release(number);
        })
    }
}
