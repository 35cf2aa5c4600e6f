ghost use Rattle.bank.specs.Ports.{PortFits};

use crate::port::Port;
use crate::port_bank::PortBank;

// A bank that keeps a record of each port.
pub type RecordBank = PortBank<KeptRecord>;

// A port that is kept as its record.
#[derive(Clone, Copy)]
pub struct KeptRecord {
    pub(crate) port: Port,
    ghost fits: { PortFits port },
}
