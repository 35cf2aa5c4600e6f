ghost use Rattle.std.specs.Prelude.{◌≡◌, true, length};
ghost use Rattle.table.specs.Slots.{bits, slots};
ghost use Rattle.book.specs.Bits.{held_bits};
ghost use Rattle.book.specs.Tests.{all_fit, are_sets, are_apart, once, sizes_grow};

use crate::ranks::HeldRanks;
use crate::session::Session;
use table::rank::SLOTS;

// The book of one port. Entry f holds the session whose set begins at rank f, and `held` says which ranks are held. Between calls the sessions hold disjoint sets, no number stands twice, the whole
// free sets differ in size, and those sizes grow from left to right.
// Its fields are plain ones: a struct that holds one with a model of its own could not be passed by value twice.
#[derive(Clone, Copy)]
pub struct Book {
    pub(crate) ranks: [Option<Session>; SLOTS],
    pub(crate) held: HeldRanks,
    ghost long: { length ranks ≡ slots },
    ghost fit: { all_fit bits ranks ≡ true },
    ghost sets: { are_sets bits ranks ≡ true },
    ghost apart: { are_apart bits ranks ≡ true },
    ghost single: { once ranks ≡ true },
    ghost ordered: { sizes_grow bits ranks ≡ true },
    ghost taken: { held.bits ≡ held_bits bits ranks },
}
