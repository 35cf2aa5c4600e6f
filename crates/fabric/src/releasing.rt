// Releasing a session at all its ports.
ghost use Rattle.std.specs.Prelude.{◌≡◌};
ghost use Rattle.table.specs.Slots.{bits};
ghost use Rattle.book.specs.Books.{released};
ghost use Rattle.fabric.specs.States.{meaning, outcome};
ghost use Rattle.fabric.specs.Changes.{changing, changed_along};
ghost use Rattle.fabric.specs.Releasing.{ask_live, free_or_open, ask_holders, holders, release_call};

use crate::declined::{Declined, by_fabric, port_shut};
use crate::fabric::{Fabric, PortState};
use crate::questions::{ask_each, ask_number, is_open};
use bank::bank::Bank;
use table::refusal::Reason;

impl PortState {
    // Whether a port does not hold the session, or is open.
    fn free_or_open<B: Bank>(&self, bank: &B, port: usize, number: u16) -> bool
        ensures { result ≡ free_or_open number (B.ports bank.now) port self.now.book.ranks }
    {
        !self.book.holds(number) || is_open(bank, port)
    }
}

impl Fabric {
    // Is the number live?
    fn ask_live(&self, number: u16) -> Result<(), Declined>
        ensures { result ≡ ask_live number (meaning self.now).books }
    {
        if !self.is_live(number) {
            return Err(by_fabric(Reason::NotLive, 0));
        }
        Ok(())
    }

    // Is every port that holds the session open?
    fn ask_holders<B: Bank>(&self, bank: &B, number: u16) -> Result<(), Declined>
        ensures { result ≡ ask_holders number (meaning self.now).books (B.ports bank.now) }
    {
        ask_each(
            &self.ports,
            |port, state| state.free_or_open(bank, port, number),
            port_shut,
        )
    }

    // At each port that holds it the session ends, and others move. Answers how many slots changed.
    fn release_all<B: Bank>(&mut self, bank: &mut B, number: u16) -> usize
        ensures { changing result (meaning self.new) (B.ports bank.new) ≡ changed_along (λ b. released bits b number) (holders number 0 (meaning self.old).books) (changing 0 (meaning self.old) (B.ports bank.old)) }
    {
        let mut slots = 0;
        // By index: after `iter_mut().enumerate()` a proof knows no element.
        for port in 0..self.ports.len() {
            slots += self.ports[port].release(bank, port, number);
        }
        slots
    }

    // Releases a session at all its ports, where the port of each is open. Answers how many slots changed over all ports.
    pub fn release<B: Bank>(&mut self, bank: &mut B, number: u32) -> Result<usize, Declined>
        ensures meets { outcome result (meaning self.new) (B.ports bank.new) ≡ release_call (meaning self.old) (B.ports bank.old) number }
    {
        self.ask_started(bank)?;
        let number = ask_number(number)?;
        self.ask_live(number)?;
        self.ask_holders(bank, number)?;
        Ok(self.release_all(bank, number))
    }
}
