// The one call that performs all others.
ghost use Rattle.std.specs.Prelude.{◌≡◌};
ghost use Rattle.fabric.specs.States.{meaning};
ghost use Rattle.manager.specs.Calls.{asked, leaving, performed};
ghost use Rattle.manager.specs.Guarantee.{Carries, Begins};

use crate::call::{Answer, Call};
use bank::bank::Bank;
use fabric::declined::Declined;
use fabric::fabric::Fabric;
use lanes::lanes::Lanes;

// Hands a call on to the fabric.
fn dispatch<B: Bank, L: Lanes>(
    fabric: &mut Fabric,
    bank: &mut B,
    lanes: &mut L,
    call: &Call,
) -> Result<Answer, Declined>
    ensures meets { leaving result (meaning fabric.new) (B.ports bank.new) (L.queues lanes.new) ≡ performed (meaning fabric.old) (B.ports bank.old) (L.queues lanes.old) (asked call.now) }
{
    match *call {
        Call::Start => {
            fabric.start(bank)?;
            Ok(Answer::Started)
        }
        Call::Reserve {
            number,
            level,
            weight,
            path,
        } => {
            let (spacing, grant, slots) = fabric.reserve(bank, number, level, weight, path)?;
            Ok(Answer::Reserved(spacing, grant, slots))
        }
        Call::Release(number) => {
            let slots = fabric.release(bank, number)?;
            Ok(Answer::Released(slots))
        }
        Call::Shut(port) => {
            fabric.shut(bank, port)?;
            Ok(Answer::Shut)
        }
        Call::Reopen(port) => {
            fabric.reopen(bank, port)?;
            Ok(Answer::Reopened)
        }
        Call::Pick(port) => {
            let picked = fabric.pick(bank, lanes, port)?;
            Ok(Answer::Picked(picked))
        }
    }
}

// Performs a call, as defined for it. Whatever happened since the fabric was started on the bank, the guarantee holds of all that happened with
// this call; and a start that is accepted begins a history, whatever was before it.
pub fn perform<B: Bank, L: Lanes>(
    fabric: &mut Fabric,
    bank: &mut B,
    lanes: &mut L,
    call: &Call,
) -> Result<Answer, Declined>
    ensures meets { leaving result (meaning fabric.new) (B.ports bank.new) (L.queues lanes.new) ≡ performed (meaning fabric.old) (B.ports bank.old) (L.queues lanes.old) (asked call.now) }
    ensures carries { Carries (meaning fabric.old) (B.ports bank.old) (L.queues lanes.old) (asked call.now) result (meaning fabric.new) (B.ports bank.new) (L.queues lanes.new) }
    ensures begins { Begins (B.ports bank.old) (asked call.now) result (meaning fabric.new) (B.ports bank.new) }
{
    dispatch(fabric, bank, lanes, call)
}
