// Runs of bookings on a started fabric over a bank of four open ports.
use crate::no::No;
use bank::bank::Bank;
use bank::record::RecordBank;
use fabric::fabric::Fabric;
use std::process::Abort;
use table::slot::Slot;

// Calls as values, since they stand in constant tables beside what they must answer; so too in the other two files.
#[derive(Clone, Copy)]
enum Ask {
    // Number, level, weight, path.
    Reserve(u32, u32, u32, &'static [usize]),
    Release(u32),
    // What the bank holds in a slot of a port.
    Slot(usize, usize),
}

#[derive(Clone, Copy, PartialEq, Debug)]
enum Said {
    // Spacing, grant, changed slots.
    Reserved(usize, u32, usize),
    // Changed slots.
    Released(usize),
    // Lane, weight.
    Holds(u8, u8),
}

// A day: session 1 first holds slots 0, 32, 16, 48 and 8, 40, 24, 56; its release moves session 2 at port 0 from slots 4 and 36 to 0 and 32.
const DAY: [(Ask, Result<Said, No>); 39] = [
    (Ask::Reserve(1, 7, 20, &[0]), Ok(Said::Reserved(8, 20, 8))),
    (Ask::Slot(0, 0), Ok(Said::Holds(7, 3))),
    (Ask::Slot(0, 32), Ok(Said::Holds(7, 3))),
    (Ask::Slot(0, 16), Ok(Said::Holds(7, 3))),
    (Ask::Slot(0, 48), Ok(Said::Holds(7, 3))),
    (Ask::Slot(0, 8), Ok(Said::Holds(7, 2))),
    (Ask::Slot(0, 40), Ok(Said::Holds(7, 2))),
    (Ask::Slot(0, 24), Ok(Said::Holds(7, 2))),
    (Ask::Slot(0, 56), Ok(Said::Holds(7, 2))),
    (Ask::Slot(0, 4), Ok(Said::Holds(0, 0))),
    (Ask::Slot(1, 0), Ok(Said::Holds(0, 0))),
    (
        Ask::Reserve(2, 0, 300, &[0, 1]),
        Ok(Said::Reserved(32, 300, 4)),
    ),
    (Ask::Slot(0, 4), Ok(Said::Holds(0, 150))),
    (Ask::Slot(0, 36), Ok(Said::Holds(0, 150))),
    (Ask::Slot(1, 0), Ok(Said::Holds(0, 150))),
    (Ask::Slot(1, 32), Ok(Said::Holds(0, 150))),
    (Ask::Reserve(3, 13, 40, &[0]), Ok(Said::Reserved(2, 40, 32))),
    (Ask::Slot(0, 1), Ok(Said::Holds(13, 2))),
    (Ask::Slot(0, 57), Ok(Said::Holds(13, 2))),
    (Ask::Slot(0, 5), Ok(Said::Holds(13, 1))),
    (Ask::Slot(0, 63), Ok(Said::Holds(13, 1))),
    (Ask::Reserve(4, 13, 32, &[1, 0]), Err(No(8, 1))),
    (Ask::Slot(1, 1), Ok(Said::Holds(0, 0))),
    (Ask::Reserve(5, 11, 16, &[0]), Ok(Said::Reserved(4, 16, 16))),
    (Ask::Slot(0, 2), Ok(Said::Holds(11, 1))),
    (Ask::Slot(0, 62), Ok(Said::Holds(11, 1))),
    (Ask::Release(1), Ok(Said::Released(10))),
    (Ask::Slot(0, 0), Ok(Said::Holds(0, 150))),
    (Ask::Slot(0, 32), Ok(Said::Holds(0, 150))),
    (Ask::Slot(0, 4), Ok(Said::Holds(0, 0))),
    (Ask::Slot(0, 36), Ok(Said::Holds(0, 0))),
    (Ask::Slot(0, 16), Ok(Said::Holds(0, 0))),
    (Ask::Slot(0, 8), Ok(Said::Holds(0, 0))),
    (Ask::Slot(0, 1), Ok(Said::Holds(13, 2))),
    (Ask::Slot(0, 2), Ok(Said::Holds(11, 1))),
    (Ask::Slot(1, 0), Ok(Said::Holds(0, 150))),
    (Ask::Slot(1, 32), Ok(Said::Holds(0, 150))),
    (Ask::Release(9), Err(No(9, 0))),
    (Ask::Release(1), Err(No(9, 0))),
];

// What weights are given at the lowest level: 255 fits one slot, and 16,320 is all that a port carries.
const WEIGHTS: [(Ask, Result<Said, No>); 12] = [
    (
        Ask::Reserve(1, 0, 255, &[0]),
        Ok(Said::Reserved(64, 255, 1)),
    ),
    (
        Ask::Reserve(2, 0, 256, &[0]),
        Ok(Said::Reserved(32, 256, 2)),
    ),
    (
        Ask::Reserve(3, 0, 16320, &[1]),
        Ok(Said::Reserved(1, 16320, 64)),
    ),
    (Ask::Reserve(4, 0, 16321, &[2]), Err(No(4, 0))),
    (Ask::Reserve(4, 0, 0, &[2]), Err(No(4, 0))),
    (Ask::Slot(0, 0), Ok(Said::Holds(0, 255))),
    (Ask::Slot(0, 32), Ok(Said::Holds(0, 0))),
    (Ask::Slot(0, 16), Ok(Said::Holds(0, 128))),
    (Ask::Slot(0, 48), Ok(Said::Holds(0, 128))),
    (Ask::Slot(1, 0), Ok(Said::Holds(0, 255))),
    (Ask::Slot(1, 63), Ok(Said::Holds(0, 255))),
    (Ask::Slot(2, 0), Ok(Said::Holds(0, 0))),
];

// Eight equal sessions fill a port. Two end, and every fourth slot from slot 2 on, ranks 16 to 31, is free for one session.
const EIGHT: [(Ask, Result<Said, No>); 34] = [
    (Ask::Reserve(1, 7, 8, &[0]), Ok(Said::Reserved(8, 8, 8))),
    (Ask::Reserve(2, 7, 8, &[0]), Ok(Said::Reserved(8, 8, 8))),
    (Ask::Reserve(3, 7, 8, &[0]), Ok(Said::Reserved(8, 8, 8))),
    (Ask::Slot(0, 2), Ok(Said::Holds(7, 1))),
    (Ask::Slot(0, 10), Ok(Said::Holds(7, 1))),
    (Ask::Slot(0, 58), Ok(Said::Holds(7, 1))),
    (Ask::Slot(0, 6), Ok(Said::Holds(0, 0))),
    (Ask::Reserve(4, 7, 8, &[0]), Ok(Said::Reserved(8, 8, 8))),
    (Ask::Reserve(5, 7, 8, &[0]), Ok(Said::Reserved(8, 8, 8))),
    (Ask::Reserve(6, 7, 8, &[0]), Ok(Said::Reserved(8, 8, 8))),
    (Ask::Reserve(7, 7, 8, &[0]), Ok(Said::Reserved(8, 8, 8))),
    (Ask::Reserve(8, 7, 8, &[0]), Ok(Said::Reserved(8, 8, 8))),
    (Ask::Reserve(9, 0, 1, &[0]), Err(No(8, 0))),
    (Ask::Release(3), Ok(Said::Released(8))),
    (Ask::Slot(0, 2), Ok(Said::Holds(0, 0))),
    (Ask::Slot(0, 6), Ok(Said::Holds(7, 1))),
    (Ask::Slot(0, 1), Ok(Said::Holds(7, 1))),
    (Ask::Release(5), Ok(Said::Released(8))),
    (Ask::Slot(0, 2), Ok(Said::Holds(0, 0))),
    (Ask::Slot(0, 6), Ok(Said::Holds(0, 0))),
    (Ask::Slot(0, 10), Ok(Said::Holds(0, 0))),
    (Ask::Slot(0, 14), Ok(Said::Holds(0, 0))),
    (Ask::Slot(0, 34), Ok(Said::Holds(0, 0))),
    (Ask::Slot(0, 62), Ok(Said::Holds(0, 0))),
    (Ask::Slot(0, 0), Ok(Said::Holds(7, 1))),
    (Ask::Slot(0, 1), Ok(Said::Holds(7, 1))),
    (Ask::Slot(0, 3), Ok(Said::Holds(7, 1))),
    (Ask::Slot(0, 4), Ok(Said::Holds(7, 1))),
    (Ask::Slot(0, 57), Ok(Said::Holds(7, 1))),
    (Ask::Reserve(9, 11, 32, &[0]), Ok(Said::Reserved(4, 32, 16))),
    (Ask::Slot(0, 2), Ok(Said::Holds(11, 2))),
    (Ask::Slot(0, 6), Ok(Said::Holds(11, 2))),
    (Ask::Slot(0, 62), Ok(Said::Holds(11, 2))),
    (Ask::Slot(0, 1), Ok(Said::Holds(7, 1))),
];

// Distances 45, 8, 53, 61, 60, 55, 24, 3 and 9 in this order, each by the level at or below it. All find room, and slots 18 and 50 are left for one more.
const DISTANCES: [(Ask, Result<Said, No>); 34] = [
    (Ask::Reserve(1, 1, 2, &[3]), Ok(Said::Reserved(32, 2, 2))),
    (Ask::Reserve(2, 7, 8, &[3]), Ok(Said::Reserved(8, 8, 8))),
    (Ask::Reserve(3, 1, 4, &[3]), Ok(Said::Reserved(32, 4, 2))),
    (Ask::Reserve(4, 1, 6, &[3]), Ok(Said::Reserved(32, 6, 2))),
    (Ask::Reserve(5, 1, 8, &[3]), Ok(Said::Reserved(32, 8, 2))),
    (Ask::Reserve(6, 1, 10, &[3]), Ok(Said::Reserved(32, 10, 2))),
    (Ask::Reserve(7, 2, 4, &[3]), Ok(Said::Reserved(16, 4, 4))),
    (Ask::Reserve(8, 12, 32, &[3]), Ok(Said::Reserved(2, 32, 32))),
    (Ask::Reserve(9, 7, 16, &[3]), Ok(Said::Reserved(8, 16, 8))),
    (Ask::Slot(3, 0), Ok(Said::Holds(1, 1))),
    (Ask::Slot(3, 32), Ok(Said::Holds(1, 1))),
    (Ask::Slot(3, 4), Ok(Said::Holds(7, 1))),
    (Ask::Slot(3, 12), Ok(Said::Holds(7, 1))),
    (Ask::Slot(3, 60), Ok(Said::Holds(7, 1))),
    (Ask::Slot(3, 16), Ok(Said::Holds(1, 2))),
    (Ask::Slot(3, 48), Ok(Said::Holds(1, 2))),
    (Ask::Slot(3, 8), Ok(Said::Holds(1, 3))),
    (Ask::Slot(3, 40), Ok(Said::Holds(1, 3))),
    (Ask::Slot(3, 24), Ok(Said::Holds(1, 4))),
    (Ask::Slot(3, 56), Ok(Said::Holds(1, 4))),
    (Ask::Slot(3, 2), Ok(Said::Holds(1, 5))),
    (Ask::Slot(3, 34), Ok(Said::Holds(1, 5))),
    (Ask::Slot(3, 10), Ok(Said::Holds(2, 1))),
    (Ask::Slot(3, 58), Ok(Said::Holds(2, 1))),
    (Ask::Slot(3, 1), Ok(Said::Holds(12, 1))),
    (Ask::Slot(3, 63), Ok(Said::Holds(12, 1))),
    (Ask::Slot(3, 6), Ok(Said::Holds(7, 2))),
    (Ask::Slot(3, 62), Ok(Said::Holds(7, 2))),
    (Ask::Slot(3, 18), Ok(Said::Holds(0, 0))),
    (Ask::Slot(3, 50), Ok(Said::Holds(0, 0))),
    (Ask::Reserve(10, 1, 12, &[3]), Ok(Said::Reserved(32, 12, 2))),
    (Ask::Slot(3, 18), Ok(Said::Holds(1, 6))),
    (Ask::Slot(3, 50), Ok(Said::Holds(1, 6))),
    (Ask::Reserve(11, 0, 1, &[3]), Err(No(8, 0))),
];

fn answer(fabric: &mut Fabric, bank: &mut RecordBank, ask: Ask) -> Result<Said, No> {
    match ask {
        Ask::Reserve(number, level, weight, path) => {
            let (spacing, grant, slots) = fabric.reserve(bank, number, level, weight, path)?;
            Ok(Said::Reserved(spacing, grant, slots))
        }
        Ask::Release(number) => {
            let slots = fabric.release(bank, number)?;
            Ok(Said::Released(slots))
        }
        Ask::Slot(port, slot) => {
            let Slot { lane, weight } = bank.slot(port, slot)?;
            Ok(Said::Holds(lane, weight))
        }
    }
}

fn run(rt: &impl Abort, name: &'static str, script: &[(Ask, Result<Said, No>)]) {
    let mut bank = RecordBank::new(4);
    let mut fabric = Fabric::new();
    assert!(rt; fabric.start(&mut bank).is_ok(), "{name}");
    for (k, (ask, want)) in script.iter().enumerate() {
        assert_eq!(rt; answer(&mut fabric, &mut bank, *ask), *want, "{name} {k}");
    }
}

#[test]
fn runs(rt: HostRuntime) {
    run(&rt, "day", &DAY);
    run(&rt, "weights", &WEIGHTS);
    run(&rt, "eight", &EIGHT);
    run(&rt, "distances", &DISTANCES);
}
