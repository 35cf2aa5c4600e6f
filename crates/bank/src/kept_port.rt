ghost use Rattle.std.specs.Prelude.{◌≡◌, ◌<◌};
ghost use Rattle.table.specs.Slots.{slots, lane_count};
ghost use Rattle.bank.specs.declared.port.Port.{Port};
ghost use Rattle.bank.specs.Ports.{PortFits, new_port, slot_of_port, port_with_slot, port_with_state};

use table::slot::Slot;

// A way to keep one port of a bank. It asks no questions: the bank has asked them.
pub trait KeptPort: Copy + Drop {
    // The port that is meant.
    ghost port: { Self → Port };

    // An open port with empty slots.
    fn new() -> Self
        ensures { port result ≡ new_port };

    fn is_open(&self) -> bool
        ensures { result ≡ (port self.now).«open» };

    // Sets the state only.
    fn set_open(&mut self, open: bool)
        ensures { port self.new ≡ port_with_state (port self.old) «open» };

    fn slot(&self, slot: usize) -> Slot
        requires { slot < slots }
        ensures { result ≡ slot_of_port (port self.now) slot };

    // Sets one slot only.
    fn set_slot(&mut self, slot: usize, what: Slot)
        requires low { slot < slots }
        requires lane { what.lane < lane_count }
        ensures { port self.new ≡ port_with_slot (port self.old) slot what };

    // Every port that is kept fits a bank.
    ghost fits: { (q : Self) → PortFits (port q) };
}
