ghost use Rattle.std.specs.Prelude.{◌≡◌, ℕ, ◌<◌, true, not, map, length, slice_set};
ghost use Rattle.std.specs.List.{find, range_with_len};
ghost use Rattle.bank.specs.Ports.{port_at};
ghost use Rattle.fabric.specs.States.{meaning, outcome};
ghost use Rattle.fabric.specs.Starting.{unstarted, start_answer, emptied_port, start_call};

use crate::declined::{Declined, port_shut};
use crate::fabric::{Fabric, Pointer, PortState};
use crate::questions::is_open;
use bank::bank::Bank;
use bank::port::MOST_PORTS;
use book::book::Book;
use table::rank::SLOTS;
use table::slot::Slot;

// The first port of the bank that is shut, if one is.
fn first_shut<B: Bank>(bank: &B) -> Option<usize>
    ensures { result ≡ find (λ port. not (port_at (B.ports bank.now) port).«open») (range_with_len 0 (length (B.ports bank.now))) }
{
    (0..bank.count()).find(|port| !is_open(bank, *port))
}

// Is every port of the bank open?
fn ask_all_open<B: Bank>(bank: &B) -> Result<(), Declined>
    ensures { result ≡ start_answer (B.ports bank.now) }
{
    match first_shut(bank) {
        Some(port) => Err(port_shut(port)),
        None => Ok(()),
    }
}

// Empties the slots of an open port.
fn empty_port<B: Bank>(bank: &mut B, port: usize)
    requires within { port < length (B.ports bank.old) }
    requires open { (port_at (B.ports bank.old) port).«open» ≡ true }
    ensures { B.ports bank.new ≡ slice_set (B.ports bank.old) port (emptied_port (port_at (B.ports bank.old) port)) }
{
    // By number, as a bank is asked.
    for slot in 0..SLOTS {
        let _ = bank.write(port, slot, Slot::empty());
    }
}

// Empties the slots of all ports, which are open.
fn empty_all<B: Bank>(bank: &mut B)
    requires { (p : ℕ) → p < length (B.ports bank.old) → (port_at (B.ports bank.old) p).«open» ≡ true }
    ensures { B.ports bank.new ≡ map emptied_port (B.ports bank.old) }
{
    // By number, as a bank is asked.
    for port in 0..bank.count() {
        empty_port(bank, port);
    }
}

impl Fabric {
    // A fabric that was never started.
    pub fn new() -> Fabric
        ensures { meaning result ≡ unstarted }
    {
        Fabric {
            started: None,
            ports: [PortState {
                book: Book::new(),
                pointer: Pointer {
                    slot: SLOTS - 1,
                    credit: 0,
                },
            }; MOST_PORTS],
        }
    }

    // Ends all sessions and empties all slots, where every port is open.
    pub fn start<B: Bank>(&mut self, bank: &mut B) -> Result<(), Declined>
        ensures meets { outcome result (meaning self.new) (B.ports bank.new) ≡ start_call (meaning self.old) (B.ports bank.old) }
    {
        ask_all_open(bank)?;
        empty_all(bank);
        *self = Fabric::new();
        self.started = Some(bank.count());
        Ok(())
    }
}
