ghost use Rattle.std.specs.Prelude.{◌≡◌, false, true};
ghost use Rattle.bank.specs.Ports.{new_ports, state_answer, state_after};
ghost use Rattle.bank.specs.PortBanks.{bank_ports};
ghost use Rattle.bank.specs.PortBanksLemmas.{bank_fits};

use crate::bank::Bank;
use crate::kept_port::KeptPort;
use crate::port::{LANES, MOST_PORTS};
use crate::port_bank::PortBank;
use crate::refused::ask;
use table::rank::SLOTS;
use table::refusal::{Reason, Refusal};
use table::slot::Slot;

impl<P: KeptPort> PortBank<P> {
    // A bank of open ports with empty slots: `count` of them, but at least one and at most sixteen.
    pub fn new(count: usize) -> PortBank<P>
        ensures { bank_ports P.port result ≡ new_ports count }
    {
        PortBank {
            count: count.max(1).min(MOST_PORTS),
            ports: [P::new(); MOST_PORTS],
        }
    }

    // Shuts a port, or opens it again.
    fn set_open(&mut self, port: usize, open: bool) -> Result<(), Refusal>
        ensures answer { result ≡ state_answer (bank_ports P.port self.old) port }
        ensures after { bank_ports P.port self.new ≡ state_after (bank_ports P.port self.old) port «open» }
    {
        ask(port < self.count, Reason::NoSuchPort)?;
        self.ports[port].set_open(open);
        Ok(())
    }
}

impl<P: KeptPort> Bank for PortBank<P> {
    ghost ports = { bank_ports P.port };

    ghost fits = { bank_fits P.port P.fits };

    fn count(&self) -> usize {
        self.count
    }

    fn is_open(&self, port: usize) -> Result<bool, Refusal> {
        ask(port < self.count, Reason::NoSuchPort)?;
        Ok(self.ports[port].is_open())
    }

    fn slot(&self, port: usize, slot: usize) -> Result<Slot, Refusal> {
        ask(port < self.count, Reason::NoSuchPort)?;
        ask(slot < SLOTS, Reason::NoSuchSlot)?;
        Ok(self.ports[port].slot(slot))
    }

    fn write(&mut self, port: usize, slot: usize, what: Slot) -> Result<(), Refusal> {
        ask(port < self.count, Reason::NoSuchPort)?;
        ask(slot < SLOTS, Reason::NoSuchSlot)?;
        ask(what.lane < LANES, Reason::NoSuchLane)?;
        let kept = &mut self.ports[port];
        ask(kept.is_open(), Reason::PortShut)?;
        kept.set_slot(slot, what);
        Ok(())
    }

    fn shut(&mut self, port: usize) -> Result<(), Refusal> {
        self.set_open(port, false)
    }

    fn reopen(&mut self, port: usize) -> Result<(), Refusal> {
        self.set_open(port, true)
    }
}
