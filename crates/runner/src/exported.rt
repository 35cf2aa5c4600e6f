// What the static library exports.
ghost use Rattle.std.specs.Prelude.{◌≡◌, map, length};
ghost use Rattle.bank.specs.Records.{record_ports};
ghost use Rattle.fabric.specs.States.{meaning};
ghost use Rattle.lanes.specs.RingQueues.{ring_queues};
ghost use Rattle.text.specs.Answers.{Wrote};
ghost use Rattle.text.specs.Writers.{Writes};
ghost use Rattle.daysheet.specs.Sheets.{sheet_text};
ghost use Rattle.runner.specs.Commands.{orders_of};
ghost use Rattle.runner.specs.Scripts.{answers_to, script_bytes, WholeOrNone};

use crate::answers::{LONGEST, put_came};
use crate::script::commands_of;
use crate::world::{PORTS, obey};
use bank::record::RecordBank;
use daysheet::sheet::answer_sheet;
use fabric::fabric::Fabric;
use lanes::ring_lanes::RingLanes;
use std::alloc::Global;
use text::put::Writer;

// Carries out the commands of a script, and writes the answers to a buffer in which nothing is written yet.
fn run(
    fabric: &mut Fabric,
    bank: &mut RecordBank,
    lanes: &mut [RingLanes; PORTS],
    script: &[u8],
    answers: &mut Writer,
)
    requires { answers.old.at ≡ 0 }
    ensures { Writes answers.old answers.new (answers_to (length answers.old.out.now) (meaning fabric.old) (record_ports bank.old) (map ring_queues lanes.old) (orders_of script.now)) }
{
    for command in commands_of(script) {
        if answers.out.len() - answers.at < LONGEST {
            return;
        }
        let came = obey(fabric, bank, lanes, &command);
        put_came(answers, came);
    }
}

// Runs a call script, and writes the answers to the front of `out`. Answers how many bytes they have.
#[unsafe(no_mangle)]
pub extern "C" fn fabric_run(script: &[u8], out: &mut [u8]) -> usize
    ensures { Wrote out.old out.new 0 result (script_bytes (length out.old) script.now) }
{
    let mut fabric = Fabric::new();
    let mut bank = RecordBank::new(PORTS);
    let mut lanes = [
        RingLanes::new(),
        RingLanes::new(),
        RingLanes::new(),
        RingLanes::new(),
    ];
    let mut answers = Writer { out, at: 0 };
    run(&mut fabric, &mut bank, &mut lanes, script, &mut answers);
    answers.at
}

// Serves a day sheet, and writes the answers to the front of `out`. Answers how many bytes they have; none are written where they do not fit.
// 0 and no Result: C is given one number.
#[unsafe(no_mangle)]
pub extern "C" fn sheet_run(heap: Global, input: &[u8], out: &mut [u8]) -> usize
    ensures { WholeOrNone (sheet_text input.now) out.old out.new result }
{
    match answer_sheet(heap, input) {
        Ok(answers) => {
            let bytes = answers.len();
            if bytes > out.len() {
                return 0;
            }
            let front = &mut out[0..bytes];
            front.copy_from_slice(answers.as_slice());
            bytes
        }
        Err(_) => 0,
    }
}
