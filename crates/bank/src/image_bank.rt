ghost use Rattle.std.specs.Prelude.{◌≡◌, length};
ghost use Rattle.bank.specs.Ports.{PortFits};
ghost use Rattle.bank.specs.Images.{image_bytes};
ghost use Rattle.bank.specs.ImagePorts.{port_of};

use crate::image_port::ImagePort;
use crate::port_bank::PortBank;

// A bank that keeps each port as its image.
pub type ImageBank = PortBank<KeptImage>;

// A port that is kept as its image.
#[derive(Clone, Copy)]
pub struct KeptImage {
    pub(crate) port: ImagePort,
    ghost full: { length port.image ≡ image_bytes },
    ghost fits: { PortFits (port_of port) },
}
