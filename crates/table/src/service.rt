ghost use Rattle.std.specs.Prelude.{◌≡◌, ℕ, ◌+◌, ◌*◌, ◌/◌, ◌^◌, ◌<◌, ◌≤◌, IfOk};
ghost use Rattle.table.specs.Slots.{bits, slots, most_weight};
ghost use Rattle.table.specs.Services.{distances, serves, spacing, weight_in, service_for, IsSpacing, Served};

use crate::rank::{BITS, SLOTS};
use crate::refusal::Reason;

// A slot carries at most so many units of 64 bytes.
pub const MOST_WEIGHT: u32 = 255;

// The most slots from one turn of a session to its next, by service level. Higher levels carry no guarantee.
const DISTANCES: [u8; 14] = [64, 32, 22, 16, 13, 11, 10, 8, 7, 6, 5, 4, 3, 2];

// What a session is given: a turn every `spacing` slots, so `size` slots, and `grant` units in all of them.
#[derive(Clone, Copy, PartialEq, Eq, Debug)]
pub struct Service {
    pub spacing: usize,
    pub size: usize,
    pub grant: u32,
}

// Whether turns `t` slots apart keep the distance and can carry the weight.
fn serves(distance: usize, weight: u32, t: usize) -> bool
    requires { (0 < t) × (t ≤ 64) }
    ensures { result ≡ serves bits distance weight t }
{
    t <= distance && weight <= MOST_WEIGHT * (SLOTS / t) as u32
}

// The largest power of two that serves; 1 where no larger one does.
pub fn spacing(distance: usize, weight: u32) -> usize
    ensures value { result ≡ spacing bits distance weight }
    ensures bounds { (1 ≤ result) × (result ≤ slots) }
    ensures rule { 1 ≤ distance → weight ≤ most_weight * slots → IsSpacing bits distance weight result }
{
    let mut t = SLOTS;
    while t > 1 && !serves(distance, weight, t) {
        t /= 2;
    }
    t
}

impl Service {
    // What a level and a weight are given, or which of the two cannot be had.
    pub fn asked(level: u32, weight: u32) -> Result<Service, Reason>
        ensures value { result ≡ service_for level weight }
        ensures served { IfOk result (Served level weight) }
    {
        if level >= 14 {
            return Err(Reason::BadLevel);
        }
        if weight == 0 || weight > MOST_WEIGHT * SLOTS as u32 {
            return Err(Reason::BadWeight);
        }
        let spacing = spacing(DISTANCES[level as usize] as usize, weight);
        let size = SLOTS / spacing;
        Ok(Service {
            spacing,
            size,
            grant: weight.max(size as u32),
        })
    }
}

// What a rank carries of a grant that a set of `size` ranks shares; none where so many ranks cannot carry it.
pub fn weight_at(grant: u32, size: usize, rank: usize) -> Option<u8>
    ensures { result ≡ weight_in grant size rank }
{
    if size < 1 || (grant as usize) < size || grant as usize > MOST_WEIGHT as usize * size {
        return None;
    }
    let each = grant as usize / size;
    if rank % size < grant as usize % size {
        return Some((each + 1) as u8);
    }
    Some(each as u8)
}
