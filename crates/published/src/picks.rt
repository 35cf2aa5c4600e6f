// A run of picks at one port. Above each is told where its pointer comes to, as slot and credit.
use crate::no::No;
use bank::bank::Bank;
use bank::record::RecordBank;
use fabric::fabric::Fabric;
use fabric::picked::Picked;
use lanes::ring_lanes::RingLanes;
use std::process::Abort;
use table::slot::Slot;

#[derive(Clone, Copy)]
enum Step {
    Start,
    // A packet of so many bytes joins a lane.
    Join(u8, u16),
    // Slot, lane, weight.
    Write(usize, u8, u8),
    // Number, level, weight.
    Reserve(u32, u32, u32),
    Shut,
    Reopen,
    Pick(usize),
}

#[derive(Clone, Copy, PartialEq, Debug)]
enum Came {
    Done,
    // Lane, length, passed.
    Sent(u8, u16, usize),
    // Passed.
    Idle(usize),
}

const STEPS: [(Step, Result<Came, No>); 56] = [
    (Step::Pick(0), Err(No(1, 0))),
    // 63, 0: no slot has a weight.
    (Step::Start, Ok(Came::Done)),
    (Step::Pick(0), Ok(Came::Idle(64))),
    (Step::Join(5, 64), Ok(Came::Done)),
    (Step::Pick(0), Ok(Came::Idle(64))),
    // 0, 2: the slot behind the last is the first.
    (Step::Write(0, 5, 3), Ok(Came::Done)),
    (Step::Pick(0), Ok(Came::Sent(5, 64, 1))),
    // 0, 0: credit was left, and 65 bytes cost two units.
    (Step::Join(5, 65), Ok(Came::Done)),
    (Step::Pick(0), Ok(Came::Sent(5, 65, 0))),
    // 0, 2: the pointer's own slot comes last.
    (Step::Join(5, 1), Ok(Came::Done)),
    (Step::Pick(0), Ok(Came::Sent(5, 1, 64))),
    // 0, 2: an idle pick leaves slot and credit.
    (Step::Pick(0), Ok(Came::Idle(64))),
    // 0, 0: the credit does not fall below 0.
    (Step::Join(5, 4096), Ok(Came::Done)),
    (Step::Pick(0), Ok(Came::Sent(5, 4096, 0))),
    // 10, 0: slots are tried in order.
    (Step::Write(10, 2, 1), Ok(Came::Done)),
    (Step::Write(20, 5, 255), Ok(Came::Done)),
    (Step::Join(2, 100), Ok(Came::Done)),
    (Step::Join(2, 100), Ok(Came::Done)),
    (Step::Join(5, 64), Ok(Came::Done)),
    (Step::Join(5, 64), Ok(Came::Done)),
    (Step::Pick(0), Ok(Came::Sent(2, 100, 10))),
    // 20, 254, then 20, 253.
    (Step::Pick(0), Ok(Came::Sent(5, 64, 10))),
    (Step::Pick(0), Ok(Came::Sent(5, 64, 0))),
    // 10, 0: credit is left, and no packet; slot 0 has none either.
    (Step::Pick(0), Ok(Came::Sent(2, 100, 54))),
    // 20, 254.
    (Step::Join(5, 64), Ok(Came::Done)),
    (Step::Join(5, 64), Ok(Came::Done)),
    (Step::Pick(0), Ok(Came::Sent(5, 64, 10))),
    // 0, 2: the slot was emptied, so its credit is not spent, and lane 0 is not served.
    (Step::Write(20, 0, 0), Ok(Came::Done)),
    (Step::Join(0, 64), Ok(Came::Done)),
    (Step::Pick(0), Ok(Came::Sent(5, 64, 44))),
    // 0, 0, and then 0, 0 again: a credit of 2 counts no more than the weight of 1 that is now in the slot.
    (Step::Write(0, 5, 1), Ok(Came::Done)),
    (Step::Join(5, 64), Ok(Came::Done)),
    (Step::Pick(0), Ok(Came::Sent(5, 64, 0))),
    (Step::Join(5, 64), Ok(Came::Done)),
    (Step::Pick(0), Ok(Came::Sent(5, 64, 64))),
    // A packet waits in lane 0, and no slot with a weight has that lane.
    (Step::Pick(0), Ok(Came::Idle(64))),
    // A port that is not there, and one that is shut.
    (Step::Pick(1), Err(No(10, 0))),
    (Step::Join(5, 64), Ok(Came::Done)),
    (Step::Shut, Ok(Came::Done)),
    (Step::Pick(0), Err(No(6, 0))),
    (Step::Reopen, Ok(Came::Done)),
    (Step::Pick(0), Ok(Came::Sent(5, 64, 64))),
    // A session of spacing 8 has every eighth slot, from slot 0 on, and sends three units at each.
    (Step::Start, Ok(Came::Done)),
    (Step::Pick(0), Ok(Came::Idle(64))),
    (Step::Reserve(1, 7, 20), Ok(Came::Done)),
    (Step::Join(7, 192), Ok(Came::Done)),
    (Step::Join(7, 192), Ok(Came::Done)),
    (Step::Join(7, 192), Ok(Came::Done)),
    (Step::Pick(0), Ok(Came::Sent(7, 192, 1))),
    (Step::Pick(0), Ok(Came::Sent(7, 192, 8))),
    (Step::Pick(0), Ok(Came::Sent(7, 192, 8))),
    // A second session has slots 4 and 36 for lane 0.
    (Step::Reserve(2, 0, 300), Ok(Came::Done)),
    (Step::Join(7, 192), Ok(Came::Done)),
    (Step::Pick(0), Ok(Came::Sent(7, 192, 8))),
    (Step::Pick(0), Ok(Came::Sent(0, 64, 12))),
    (Step::Pick(0), Ok(Came::Idle(64))),
];

impl From<Picked> for Came {
    fn from(picked: Picked) -> Came {
        match picked {
            Picked::Sent {
                lane,
                length,
                passed,
            } => Came::Sent(lane, length, passed),
            Picked::Idle { passed } => Came::Idle(passed),
        }
    }
}

fn outcome(
    fabric: &mut Fabric,
    bank: &mut RecordBank,
    lanes: &mut RingLanes,
    step: Step,
) -> Result<Came, No> {
    match step {
        Step::Start => fabric.start(bank)?,
        Step::Join(lane, bytes) => lanes.arrive(lane, bytes)?,
        Step::Write(slot, lane, weight) => bank.write(0, slot, Slot { lane, weight })?,
        Step::Reserve(number, level, weight) => {
            let _ = fabric.reserve(bank, number, level, weight, &[0])?;
        }
        Step::Shut => fabric.shut(bank, 0)?,
        Step::Reopen => fabric.reopen(bank, 0)?,
        Step::Pick(port) => return Ok(Came::from(fabric.pick(bank, lanes, port)?)),
    }
    Ok(Came::Done)
}

fn follow(rt: &impl Abort, steps: &[(Step, Result<Came, No>)]) {
    let mut bank = RecordBank::new(1);
    let mut fabric = Fabric::new();
    let mut lanes = RingLanes::new();
    for (k, (step, want)) in steps.iter().enumerate() {
        assert_eq!(rt;
            outcome(&mut fabric, &mut bank, &mut lanes, *step),
            *want,
            "{k}"
        );
    }
}

#[test]
fn steps(rt: HostRuntime) {
    follow(&rt, &STEPS);
}
