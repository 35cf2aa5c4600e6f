ghost use Rattle.bank.specs.Records.{record_port};

use crate::kept_port::KeptPort;
use crate::port::Port;
use crate::record::KeptRecord;
use table::rank::SLOTS;
use table::slot::Slot;

impl KeptPort for KeptRecord {
    ghost port = { record_port };

    ghost fits = { λ q. q.fits };

    fn new() -> KeptRecord {
        KeptRecord {
            port: Port {
                open: true,
                slots: [Slot::empty(); SLOTS],
            },
        }
    }

    fn is_open(&self) -> bool {
        self.port.open
    }

    fn set_open(&mut self, open: bool) {
        self.port.open = open;
    }

    fn slot(&self, slot: usize) -> Slot {
        self.port.slots[slot]
    }

    fn set_slot(&mut self, slot: usize, what: Slot) {
        self.port.slots[slot] = what;
    }
}
