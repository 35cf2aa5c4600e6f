ghost use Rattle.std.specs.Prelude.{◌≡◌, ◌≤◌, length};
ghost use Rattle.bank.specs.Ports.{most_ports};

use crate::port::MOST_PORTS;

// A bank that keeps each port in one way. The ports past `count` are not in use; a vector would allocate, and a new bank cannot fail.
#[derive(Drop)]
pub struct PortBank<P> {
    pub(crate) count: usize,
    pub(crate) ports: [P; MOST_PORTS],
    ghost long: { length ports ≡ most_ports },
    ghost some: { 1 ≤ count },
    ghost most: { count ≤ most_ports },
}
