ghost use Rattle.std.specs.Prelude.{◌≡◌};
ghost use Rattle.table.specs.declared.refusal.Reason.TheVariants.{PortShut};
ghost use Rattle.fabric.specs.Declines.{by_fabric, by_bank, handed_on};

use table::refusal::{Layer, Reason, Refusal};

// A refusal, whole as its layer found it, and beside it the hop or port that the fabric's question names (else 0, as it is printed).
#[derive(Clone, Copy, PartialEq, Eq, Debug)]
pub struct Declined {
    pub refusal: Refusal,
    pub place: usize,
}

// A refusal handed on by a question that names no place.
impl From<Refusal> for Declined {
    ghost from_gives = { λ refusal declined. declined ≡ handed_on refusal };

    fn from(refusal: Refusal) -> Declined {
        Declined { refusal, place: 0 }
    }
}

// A refusal that the fabric found.
pub(crate) fn by_fabric(reason: Reason, place: usize) -> Declined
    ensures { result ≡ by_fabric reason place }
{
    Declined {
        refusal: Refusal::new(Layer::Fabric, reason, place),
        place,
    }
}

// A port that the bank found shut. The bank's refusal names no place of its own.
pub(crate) fn port_shut(place: usize) -> Declined
    ensures { result ≡ by_bank PortShut place }
{
    Declined {
        refusal: Refusal::new(Layer::Bank, Reason::PortShut, 0),
        place,
    }
}
