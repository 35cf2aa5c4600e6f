ghost use Rattle.std.specs.Prelude.{◌≡◌, true, false, List, length};
ghost use Rattle.bank.specs.declared.port.Port.{Port};
ghost use Rattle.bank.specs.Ports.{BankFits, open_answer, slot_answer, write_answer, write_after, state_answer, state_after};

use table::refusal::Refusal;
use table::slot::Slot;

// A bank of ports. Its questions are asked in this order: port, slot, lane, and for a write that the port is open. A refusal changes nothing.
pub trait Bank {
    // The ports, in their order: all that a bank means.
    ghost ports: { Self → List Port };

    // How many ports there are, which never changes.
    fn count(&self) -> usize
        ensures { result ≡ length (ports self.now) };

    fn is_open(&self, port: usize) -> Result<bool, Refusal>
        ensures { result ≡ open_answer (ports self.now) port };

    fn slot(&self, port: usize, slot: usize) -> Result<Slot, Refusal>
        ensures { result ≡ slot_answer (ports self.now) port slot };

    // Sets one slot only.
    fn write(&mut self, port: usize, slot: usize, what: Slot) -> Result<(), Refusal>
        ensures answer { result ≡ write_answer (ports self.old) port slot what }
        ensures after { ports self.new ≡ write_after (ports self.old) port slot what };

    // Sets the state of that port only, also when it was so already.
    fn shut(&mut self, port: usize) -> Result<(), Refusal>
        ensures answer { result ≡ state_answer (ports self.old) port }
        ensures after { ports self.new ≡ state_after (ports self.old) port false };

    fn reopen(&mut self, port: usize) -> Result<(), Refusal>
        ensures answer { result ≡ state_answer (ports self.old) port }
        ensures after { ports self.new ≡ state_after (ports self.old) port true };

    ghost fits: { (b : Self) → BankFits (ports b) };
}
