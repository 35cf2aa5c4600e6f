// A refusal as the tables of these tests have it.
use fabric::declined::Declined;
use table::refusal::Refusal;

// Its number, and the place that its question names.
#[derive(Clone, Copy, PartialEq, Debug)]
pub(crate) struct No(pub(crate) u8, pub(crate) usize);

impl From<Refusal> for No {
    fn from(refusal: Refusal) -> No {
        No(refusal.reason.number(), refusal.place)
    }
}

impl From<Declined> for No {
    fn from(declined: Declined) -> No {
        No(declined.refusal.reason.number(), declined.place)
    }
}
