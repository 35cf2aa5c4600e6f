// One script for every make of bank.
use crate::answers::{Held, tell};
use bank::bank::Bank;
use bank::image::{read_slot, write_image};
use std::fmt::Display;
use std::{fmt, io};
use table::refusal::Refusal;
use table::slot::Slot;

// Calls as values, since they stand in constant tables and are printed.
#[derive(Clone, Copy)]
enum BankCall {
    Open(usize),
    Slot(usize, usize),
    // Port, slot, lane, weight.
    Write(usize, usize, u8, u8),
    Shut(usize),
    Reopen(usize),
    // The first bytes of the image of a port.
    Image(usize),
    // Port and slot, read from the image.
    Read(usize, usize),
}

// A new bank, and what it tells.
const TELLING: [BankCall; 9] = [
    BankCall::Open(0),
    BankCall::Open(1),
    BankCall::Open(2),
    BankCall::Slot(0, 0),
    BankCall::Slot(1, 63),
    BankCall::Slot(0, 64),
    BankCall::Slot(2, 0),
    BankCall::Slot(2, 64),
    BankCall::Image(1),
];

// Writes, accepted and refused. A refused one names the first question answered no.
const WRITING: [BankCall; 22] = [
    BankCall::Write(0, 0, 7, 3),
    BankCall::Write(0, 2, 14, 255),
    BankCall::Write(0, 63, 1, 1),
    BankCall::Write(1, 1, 10, 16),
    BankCall::Slot(0, 0),
    BankCall::Slot(0, 1),
    BankCall::Slot(0, 2),
    BankCall::Slot(0, 63),
    BankCall::Slot(1, 0),
    BankCall::Slot(1, 1),
    BankCall::Image(0),
    BankCall::Image(1),
    BankCall::Write(2, 64, 15, 9),
    BankCall::Write(2, 0, 7, 9),
    BankCall::Write(0, 64, 15, 9),
    BankCall::Write(0, 64, 7, 9),
    BankCall::Write(0, 0, 15, 9),
    BankCall::Write(0, 0, 255, 9),
    BankCall::Image(0),
    BankCall::Image(1),
    BankCall::Write(0, 0, 0, 0),
    BankCall::Image(0),
];

// Ports shut and reopened.
const SHUTTING: [BankCall; 22] = [
    BankCall::Shut(1),
    BankCall::Open(1),
    BankCall::Open(0),
    BankCall::Shut(1),
    BankCall::Open(1),
    BankCall::Write(1, 1, 2, 9),
    BankCall::Write(1, 1, 15, 9),
    BankCall::Write(1, 64, 15, 9),
    BankCall::Slot(1, 1),
    BankCall::Image(1),
    BankCall::Write(0, 1, 5, 8),
    BankCall::Slot(0, 1),
    BankCall::Reopen(1),
    BankCall::Open(1),
    BankCall::Reopen(1),
    BankCall::Open(1),
    BankCall::Slot(1, 1),
    BankCall::Write(1, 1, 2, 9),
    BankCall::Slot(1, 1),
    BankCall::Shut(2),
    BankCall::Reopen(2),
    BankCall::Open(0),
];

// Slots read back from images.
const READING: [BankCall; 7] = [
    BankCall::Image(0),
    BankCall::Image(1),
    BankCall::Image(2),
    BankCall::Read(0, 2),
    BankCall::Read(0, 63),
    BankCall::Read(1, 1),
    BankCall::Read(1, 64),
];

impl Display for BankCall {
    fn fmt<W: fmt::Write>(&self, f: &mut fmt::Formatter<W>) -> fmt::Result {
        match self {
            BankCall::Open(port) => write!(f, "port {port}"),
            BankCall::Slot(port, slot) => write!(f, "slot {port} {slot}"),
            BankCall::Write(port, slot, lane, weight) => write!(
                f,
                "write {port} {slot} {lane} {weight}"
            ),
            BankCall::Shut(port) => write!(f, "shut {port}"),
            BankCall::Reopen(port) => write!(f, "reopen {port}"),
            BankCall::Image(port) => write!(f, "image {port}"),
            BankCall::Read(port, slot) => write!(f, "read {port} {slot}"),
        }
    }
}

// The first eight bytes of an image, its last byte, and the byte behind it.
#[derive(Drop)]
struct Shortened([u8; 129]);

impl Display for Shortened {
    fn fmt<W: fmt::Write>(&self, f: &mut fmt::Formatter<W>) -> fmt::Result {
        for byte in &self.0[..8] {
            write!(f, "{byte:02x}")?;
        }
        write!(f, " .. {:02x} {:02x}", self.0[127], self.0[128])
    }
}

// The image of a port, in a buffer of one byte more.
fn image_of<B: Bank>(bank: &B, port: usize) -> Result<Shortened, Refusal> {
    let mut image = [170u8; 129];
    write_image(bank, port, &mut image)?;
    Ok(Shortened(image))
}

// A slot as the image of its port has it.
fn slot_by_image<B: Bank>(bank: &B, port: usize, slot: usize) -> Result<Slot, Refusal> {
    let mut image = [0u8; 128];
    write_image(bank, port, &mut image)?;
    read_slot(&image, slot)
}

fn serve_call<B: Bank>(rt: &HostRuntime, bank: &mut B, call: BankCall) -> io::Result<()> {
    print!(rt; "{call}: ")?;
    match call {
        BankCall::Open(port) => tell(
            rt,
            bank.is_open(port),
            |open| if open { "open" } else { "shut" },
        ),
        BankCall::Slot(port, slot) => tell(rt, bank.slot(port, slot), |what| Held(what)),
        BankCall::Write(port, slot, lane, weight) => tell(
            rt,
            bank.write(port, slot, Slot { lane, weight }),
            |()| "done",
        ),
        BankCall::Shut(port) => tell(rt, bank.shut(port), |()| "done"),
        BankCall::Reopen(port) => tell(rt, bank.reopen(port), |()| "done"),
        BankCall::Image(port) => tell(rt, image_of(bank, port), |image| image),
        BankCall::Read(port, slot) => tell(rt, slot_by_image(bank, port, slot), |what| Held(what)),
    }
}

fn serve_calls<B: Bank>(rt: &HostRuntime, bank: &mut B, calls: &[BankCall]) -> io::Result<()> {
    for call in calls {
        serve_call(rt, bank, *call)?;
    }
    Ok(())
}

// The counts of a bank made for no port, and of one made for more than there may be.
pub(crate) fn counts<B: Bank>(rt: &HostRuntime, none: &B, many: &B) -> io::Result<()> {
    let least = none.count();
    let most = many.count();
    println!(rt; "counts {least} and {most}")
}

// Runs the script.
pub(crate) fn serve_bank<B: Bank>(rt: &HostRuntime, bank: &mut B) -> io::Result<()> {
    let count = bank.count();
    println!(rt; "count {count}")?;
    serve_calls(rt, bank, &TELLING)?;
    serve_calls(rt, bank, &WRITING)?;
    serve_calls(rt, bank, &SHUTTING)?;
    serve_calls(rt, bank, &READING)
}
