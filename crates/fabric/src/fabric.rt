use bank::port::MOST_PORTS;
use book::book::Book;

// Where picking stands at a port: a slot, and the credit left in it.
#[derive(Clone, Copy, PartialEq, Eq, Debug)]
pub struct Pointer {
    pub slot: usize,
    pub credit: u8,
}

// What is kept of one port: the book of its sessions, and where picking stands.
#[derive(Clone, Copy)]
pub(crate) struct PortState {
    pub(crate) book: Book,
    pub(crate) pointer: Pointer,
}

// The manager of one bank. `started` is the port count of the bank that it was started on.
#[derive(Drop)]
pub struct Fabric {
    pub(crate) started: Option<usize>,
    pub(crate) ports: [PortState; MOST_PORTS],
}
