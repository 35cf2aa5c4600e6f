ghost use Rattle.std.specs.Prelude.{◌≡◌, ◌+◌, ◌*◌, ◌<◌, length, Ok};
ghost use Rattle.bank.specs.Images.{image_answer, image_after, read_slot, ReadsBack, get_slot, put_slot};

use crate::bank::Bank;
use crate::port::LANES;
use crate::refused::ask;
use table::rank::SLOTS;
use table::refusal::{Reason, Refusal};
use table::slot::Slot;

// The image of a table: two bytes for each slot.
pub const IMAGE_BYTES: usize = 128;

// Writes the image of a port's table to the front of `out`.
pub fn write_image<B: Bank>(bank: &B, port: usize, out: &mut [u8]) -> Result<(), Refusal>
    ensures answer { result ≡ image_answer (B.ports bank.now) port (length out.old) }
    ensures after { out.new ≡ image_after (B.ports bank.now) port out.old }
    ensures trip { result ≡ Ok tt → ReadsBack (B.ports bank.now) port out.new }
{
    ask(port < bank.count(), Reason::NoSuchPort)?;
    ask(out.len() >= IMAGE_BYTES, Reason::ShortBuffer)?;
    // By number: a bank is asked so, and after `chunks_exact_mut` a proof knows no byte of the buffer.
    for slot in 0..SLOTS {
        let what = bank.slot(port, slot)?;
        put_slot(out, slot, what);
    }
    Ok(())
}

// Reads one slot of an image.
pub fn read_slot(image: &[u8], slot: usize) -> Result<Slot, Refusal>
    ensures { result ≡ read_slot image.now slot }
{
    ask(image.len() >= IMAGE_BYTES, Reason::ShortBuffer)?;
    ask(slot < SLOTS, Reason::NoSuchSlot)?;
    let what = get_slot(image, slot);
    ask(what.lane < LANES, Reason::NoSuchLane)?;
    Ok(what)
}

// One slot of an image.
pub(crate) fn get_slot(image: &[u8], slot: usize) -> Slot
    requires { 2 * slot + 1 < length image.now }
    ensures { result ≡ get_slot image.now slot }
{
    Slot {
        lane: image[2 * slot],
        weight: image[2 * slot + 1],
    }
}

// Sets one slot of an image.
pub(crate) fn put_slot(image: &mut [u8], slot: usize, what: Slot)
    requires { 2 * slot + 1 < length image.old }
    ensures { image.new ≡ put_slot image.old slot what }
{
    image[2 * slot] = what.lane;
    image[2 * slot + 1] = what.weight;
}
