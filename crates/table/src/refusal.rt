ghost use Rattle.std.specs.Prelude.{◌≡◌, Some};
ghost use Rattle.table.specs.Refusals.{layer_name, number_of, refusal};

use std::fmt;

// The layer that found a refusal.
#[derive(Clone, Copy, PartialEq, Eq, Debug)]
pub enum Layer {
    Bank,
    Lanes,
    Fabric,
    Sheet,
}

impl fmt::Display for Layer {
    ghost output = { λ layer. Some (layer_name layer) };

    fn fmt<W: fmt::Write>(&self, f: &mut fmt::Formatter<W>) -> fmt::Result {
        f.write_str(match self {
            Layer::Bank => "bank",
            Layer::Lanes => "lanes",
            Layer::Fabric => "fabric",
            Layer::Sheet => "sheet",
        })
    }
}

// The question that was answered no, with the number that is printed for it.
#[derive(Clone, Copy, PartialEq, Eq, Debug)]
pub enum Reason {
    NotStarted = 1,
    BadNumber = 2,
    BadLevel = 3,
    BadWeight = 4,
    BadPath = 5,
    PortShut = 6,
    AlreadyLive = 7,
    NoRoom = 8,
    NotLive = 9,
    NoSuchPort = 10,
    NoSuchSlot = 11,
    NoSuchLane = 12,
    NoPacket = 13,
    LaneFull = 14,
    BadLength = 15,
    ShortBuffer = 16,
    LongInput = 17,
    UnknownWord = 18,
    NotANumber = 19,
    WrongCount = 20,
}

impl Reason {
    pub fn number(self) -> u8
        ensures { result ≡ number_of self }
    {
        self as u8
    }
}

// A refusal: the question answered no, the place that it names (else 0), and the layer that found it.
#[derive(Clone, Copy, PartialEq, Eq, Debug)]
pub struct Refusal {
    pub reason: Reason,
    pub place: usize,
    pub layer: Layer,
}

impl Refusal {
    // A refusal by a layer.
    pub fn new(layer: Layer, reason: Reason, place: usize) -> Refusal
        ensures { result ≡ refusal layer reason place }
    {
        Refusal {
            reason,
            place,
            layer,
        }
    }
}
