// Picking the packet that a port sends next.
ghost use Rattle.std.specs.Prelude.{◌≡◌, ◌+◌, ◌-◌, ◌<◌, ◌≤◌, ◌&&◌, length, Some, None, nat_lt, slice_set};
ghost use Rattle.table.specs.Slots.{slots};
ghost use Rattle.bank.specs.Ports.{port_at};
ghost use Rattle.lanes.specs.Queues.{most_bytes, queue, rest};
ghost use Rattle.fabric.specs.States.{meaning};
ghost use Rattle.fabric.specs.Picking.{cost, turning, slot_on, some, first, ready, seek, turn, pick_answer, picking, pick_call};

use crate::declined::{Declined, port_shut};
use crate::fabric::{Fabric, Pointer};
use crate::picked::Picked;
use bank::bank::Bank;
use lanes::lanes::Lanes;
use table::rank::SLOTS;
use table::slot::Slot;

// A unit of credit carries so many bytes.
const UNIT: u16 = 64;

// What a packet costs: a unit for each 64 bytes, begun ones too.
fn cost_of(bytes: u16) -> u8
    requires { bytes ≤ most_bytes }
    ensures { result ≡ cost bytes }
{
    bytes.div_ceil(UNIT) as u8
}

// The slot at a place of a port's table, round and round.
fn slot_on<B: Bank>(bank: &B, port: usize, place: usize) -> Slot
    ensures { result ≡ slot_on (port_at (B.ports bank.now) port).slots place }
{
    bank.slot(port, place % SLOTS).unwrap_or(Slot::empty())
}

// Whether a packet waits in a lane.
fn has_packet<L: Lanes>(lanes: &L, lane: u8) -> bool
    ensures { result ≡ some (queue (L.queues lanes.now) lane) }
{
    matches!(lanes.first(lane), Ok(Some(_)))
}

// Whether a credit is left and a packet waits in the lane.
fn can_send<L: Lanes>(lanes: &L, credit: u8, lane: u8) -> bool
    ensures { result ≡ (nat_lt 0 credit && some (queue (L.queues lanes.now) lane)) }
{
    credit > 0 && has_packet(lanes, lane)
}

// Takes the packet that waits first in a lane. Answers its length, 0 where none waits.
fn take_first<L: Lanes>(lanes: &mut L, lane: u8) -> u16
    ensures length { result ≡ first (queue (L.queues lanes.old) lane) }
    ensures most { result ≤ most_bytes }
    ensures after { L.queues lanes.new ≡ slice_set (L.queues lanes.old) lane (rest (queue (L.queues lanes.old) lane)) }
{
    // 0 and no Option: it is asked where a packet waits, and 0 is what its definition says of none.
    lanes.take(lane).unwrap_or(0)
}

// The first of the slots behind the pointer, its own last, that has a weight and a packet: how many places on it is, and the slot.
// The two are found together and taken apart in the next line, so they are a pair and no struct.
fn next_ready<B: Bank, L: Lanes>(
    bank: &B,
    lanes: &L,
    port: usize,
    at: Pointer,
) -> Option<(usize, Slot)>
    ensures { result ≡ seek (ready (port_at (B.ports bank.now) port).slots at (L.queues lanes.now)) (λ d. Some (d, slot_on (port_at (B.ports bank.now) port).slots (at.slot + d))) None 1 slots }
{
    // A loop; tried as `map` and `find`, which is proved: a pick that finds no packet took 1.3 times as long.
    for passed in 1..SLOTS + 1 {
        let slot = slot_on(bank, port, at.slot % SLOTS + passed);
        if can_send(lanes, slot.weight, slot.lane) {
            return Some((passed, slot));
        }
    }
    None
}

impl Pointer {
    // The first packet of a lane is taken, and the pointer moves to a slot, with what the packet leaves of the credit. Answers the packet's length.
    fn send<L: Lanes>(&mut self, lanes: &mut L, lane: u8, to: Pointer) -> u16
        ensures length { result ≡ first (queue (L.queues lanes.old) lane) }
        ensures moved { self.new ≡ record { slot = to.slot; credit = to.credit - cost (first (queue (L.queues lanes.old) lane)) } }
        ensures after { L.queues lanes.new ≡ slice_set (L.queues lanes.old) lane (rest (queue (L.queues lanes.old) lane)) }
    {
        let length = take_first(lanes, lane);
        *self = Pointer {
            slot: to.slot,
            credit: to.credit.saturating_sub(cost_of(length)),
        };
        length
    }

    // The turn of a port: the packet that it sends next, if a slot serves.
    fn turn<B: Bank, L: Lanes>(&mut self, bank: &B, lanes: &mut L, port: usize) -> Picked
        requires { port < length (B.ports bank.now) }
        ensures { turning result self.new (L.queues lanes.new) ≡ turn (port_at (B.ports bank.now) port).slots self.old (L.queues lanes.old) }
    {
        let at = *self;
        let own = slot_on(bank, port, at.slot);
        let usable = at.credit.min(own.weight);
        if can_send(lanes, usable, own.lane) {
            let to = Pointer {
                slot: at.slot % SLOTS,
                credit: usable,
            };
            let length = self.send(lanes, own.lane, to);
            return Picked::Sent {
                lane: own.lane,
                length,
                passed: 0,
            };
        }
        match next_ready(bank, lanes, port, at) {
            Some((passed, slot)) => {
                let to = Pointer {
                    slot: (at.slot % SLOTS + passed) % SLOTS,
                    credit: slot.weight,
                };
                let length = self.send(lanes, slot.lane, to);
                Picked::Sent {
                    lane: slot.lane,
                    length,
                    passed,
                }
            }
            None => Picked::Idle { passed: SLOTS },
        }
    }
}

impl Fabric {
    // The questions of a pick, in their order.
    fn ask_pick<B: Bank>(&self, bank: &B, port: usize) -> Result<(), Declined>
        ensures { result ≡ pick_answer (meaning self.now) (B.ports bank.now) port }
    {
        self.ask_started(bank)?;
        if !bank.is_open(port)? {
            return Err(port_shut(0));
        }
        Ok(())
    }

    // Picks the packet that a port sends next and takes it from the port's lanes. Answers its lane, its length and how many slots were stepped to.
    pub fn pick<B: Bank, L: Lanes>(
        &mut self,
        bank: &B,
        lanes: &mut L,
        port: usize,
    ) -> Result<Picked, Declined>
        ensures meets { picking result (meaning self.new) (L.queues lanes.new) ≡ pick_call (meaning self.old) (B.ports bank.now) (L.queues lanes.old) port }
    {
        self.ask_pick(bank, port)?;
        Ok(self.ports[port].pointer.turn(bank, lanes, port))
    }
}
