ghost use Rattle.bank.specs.ImageBanks.{image_port};

use crate::image::{IMAGE_BYTES, get_slot, put_slot};
use crate::image_bank::KeptImage;
use crate::image_port::ImagePort;
use crate::kept_port::KeptPort;
use table::slot::Slot;

impl KeptPort for KeptImage {
    ghost port = { image_port };

    ghost fits = { λ q. q.fits };

    fn new() -> KeptImage {
        KeptImage {
            port: ImagePort {
                open: true,
                image: [0; IMAGE_BYTES],
            },
        }
    }

    fn is_open(&self) -> bool {
        self.port.open
    }

    fn set_open(&mut self, open: bool) {
        self.port.open = open;
    }

    fn slot(&self, slot: usize) -> Slot {
        get_slot(&self.port.image, slot)
    }

    fn set_slot(&mut self, slot: usize, what: Slot) {
        put_slot(&mut self.port.image, slot, what);
    }
}
