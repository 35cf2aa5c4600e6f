// Reserving a session along a path of ports.
ghost use Rattle.std.specs.Prelude.{◌≡◌, ℕ, ◌<◌, ◌≤◌, length, nat_le, slice_index};
ghost use Rattle.table.specs.Slots.{bits, lane_count};
ghost use Rattle.bank.specs.Ports.{most_ports};
ghost use Rattle.book.specs.Books.{filled, free_ranks};
ghost use Rattle.fabric.specs.States.{meaning, book_at, outcome};
ghost use Rattle.fabric.specs.Changes.{changing, changed_along};
ghost use Rattle.fabric.specs.Reserving.{is_live, lane_of, most_hops, ask_started, ask_new, ask_room, admitted, reserve_call};

use crate::declined::{Declined, by_fabric};
use crate::fabric::Fabric;
use crate::questions::{Admission, ask_each, ask_number, ask_open, ask_path, ask_service};
use bank::bank::Bank;
use book::session::Session;
use table::refusal::Reason;

// The lane of a session of a level that carries a guarantee.
fn lane_of(level: u32) -> u8
    requires { level < lane_count }
    ensures { result ≡ lane_of level }
{
    // A cast: the level was asked, and `try_from` would add an error that cannot come. So too of size and weight below.
    level as u8
}

impl Fabric {
    // Was the fabric started on a bank with this port count?
    pub(crate) fn ask_started<B: Bank>(&self, bank: &B) -> Result<(), Declined>
        ensures { result ≡ ask_started (meaning self.now) (B.ports bank.now) }
    {
        if self.started != Some(bank.count()) {
            return Err(by_fabric(Reason::NotStarted, 0));
        }
        Ok(())
    }

    // Whether some book has the session.
    pub(crate) fn is_live(&self, number: u16) -> bool
        ensures { result ≡ is_live number (meaning self.now).books }
    {
        self.ports.iter().any(|port| port.book.holds(number))
    }

    // Is the number not live?
    fn ask_new(&self, number: u16) -> Result<(), Declined>
        ensures { result ≡ ask_new number (meaning self.now).books }
    {
        if self.is_live(number) {
            return Err(by_fabric(Reason::AlreadyLive, 0));
        }
        Ok(())
    }

    // Whether the book of a port has so many free ranks.
    fn room_at(&self, port: usize, need: usize) -> bool
        requires { port < most_ports }
        ensures { result ≡ nat_le need (free_ranks bits (book_at (meaning self.now).books port)) }
    {
        self.ports[port].book.has_room(need)
    }

    // Has every port on the path so many free ranks?
    fn ask_room(&self, need: usize, path: &[usize]) -> Result<(), Declined>
        requires { (k : ℕ) → k < length path.now → slice_index path.now k < most_ports }
        ensures { result ≡ ask_room need (meaning self.now).books path.now }
    {
        ask_each(
            path,
            |_, port| self.room_at(*port, need),
            |hop| by_fabric(Reason::NoRoom, hop),
        )
    }

    // The questions of a reserve, in their order; where all are answered yes, what enters the books.
    // Number, level, weight and path as the public call has them: this function alone would take them as a struct.
    fn admit<B: Bank>(
        &self,
        bank: &B,
        number: u32,
        level: u32,
        weight: u32,
        path: &[usize],
    ) -> Result<Admission, Declined>
        ensures { result ≡ admitted (meaning self.now) (B.ports bank.now) number level weight path.now }
    {
        self.ask_started(bank)?;
        let number = ask_number(number)?;
        let service = ask_service(level, weight)?;
        ask_path(bank.count(), path)?;
        ask_open(bank, path)?;
        self.ask_new(number)?;
        self.ask_room(service.size, path)?;
        let session = Session {
            number,
            lane: lane_of(level),
            size: service.size as u8,
            weight: weight as u16,
        };
        Ok(Admission { service, session })
    }

    // The session is filled in at each port of the path. Answers how many slots changed.
    fn fill_path<B: Bank>(&mut self, bank: &mut B, path: &[usize], session: Session) -> usize
        requires hops { length path.now ≤ most_hops }
        requires below { (k : ℕ) → k < length path.now → slice_index path.now k < most_ports }
        ensures { changing result (meaning self.new) (B.ports bank.new) ≡ changed_along (λ b. filled bits b session) path.now (changing 0 (meaning self.old) (B.ports bank.old)) }
    {
        let mut slots = 0;
        for port in path {
            slots += self.ports[*port].fill_in(bank, *port, session);
        }
        slots
    }

    // Reserves a session along a path. Answers its spacing, its grant, and how many slots changed over all ports.
    pub fn reserve<B: Bank>(
        &mut self,
        bank: &mut B,
        number: u32,
        level: u32,
        weight: u32,
        path: &[usize],
    ) -> Result<(usize, u32, usize), Declined>
        ensures meets { outcome result (meaning self.new) (B.ports bank.new) ≡ reserve_call (meaning self.old) (B.ports bank.old) number level weight path.now }
    {
        let Admission { service, session } = self.admit(bank, number, level, weight, path)?;
        let slots = self.fill_path(bank, path, session);
        Ok((service.spacing, service.grant, slots))
    }
}
