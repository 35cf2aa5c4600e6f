ghost use Rattle.std.specs.Prelude.{◌≡◌, ◌<◌};
ghost use Rattle.table.specs.Slots.{bits, slots};
ghost use Rattle.table.specs.Reversal.{reversed, OffsetOfSet, SetOfOffset};

// A table has so many slots, numbered by so many bits.
pub const SLOTS: usize = 64;

pub const BITS: u32 = 6;

// The rank of a slot, and the slot of a rank: its bits reversed. Only the low bits count.
pub fn reverse(slot: usize) -> usize
    ensures value { result ≡ reversed bits slot }
    ensures within { result < slots }
    ensures inverse { slot < slots → reversed bits result ≡ slot }
    ensures offset { OffsetOfSet bits slot result }
    ensures set { SetOfOffset bits slot result }
{
    let mut left = slot;
    let mut out: usize = 0;
    // A turn for each bit: the library's `reverse_bits` is of all 64, and would be shifted back.
    for i in 0..BITS {
        out = out * 2 + left % 2;
        left /= 2;
    }
    out
}
