// A whole sheet, from its bytes to the bytes of its answers.
ghost use Rattle.std.specs.Prelude.{◌≡◌, ◌++◌, IfOk, OnOk};
ghost use Rattle.fabric.specs.States.{meaning};
ghost use Rattle.text.specs.Lines.{lines_of};
ghost use Rattle.daysheet.specs.Replies.{obeyed, answer_text};
ghost use Rattle.daysheet.specs.Sheets.{answers_from, sheet_text};

use crate::answering::respond;
use bank::bank::Bank;
use bank::record::RecordBank;
use fabric::fabric::Fabric;
use lanes::lanes::Lanes;
use lanes::ring_lanes::RingLanes;
use manager::call::Call;
use manager::performing::perform;
use std::alloc::{AllocError, Global};
use table::refusal::Reason;
use text::answer::{ANSWER, write_no};
use text::lines::lines;

// A sheet has at most so many bytes.
pub const MOST_BYTES: usize = 65536;

// A sheet is served on a bank of so many ports.
const PORTS: usize = 4;

// Adds the answer to one more line.
fn add_answer<B: Bank, L: Lanes>(
    fabric: &mut Fabric,
    bank: &mut B,
    lanes: &mut L,
    line: &[u8],
    answers: &mut Vec<u8>,
) -> Result<(), AllocError>
    ensures text { OnOk result (answers.new.items ≡ answers.old.items ++ answer_text (obeyed (meaning fabric.old) (B.ports bank.old) (L.queues lanes.old) line.now).answer) }
    ensures state { meaning fabric.new ≡ (obeyed (meaning fabric.old) (B.ports bank.old) (L.queues lanes.old) line.now).state }
    ensures ports { B.ports bank.new ≡ (obeyed (meaning fabric.old) (B.ports bank.old) (L.queues lanes.old) line.now).ports }
    ensures queues { L.queues lanes.new ≡ (obeyed (meaning fabric.old) (B.ports bank.old) (L.queues lanes.old) line.now).queues }
{
    let mut out = [0u8; ANSWER];
    let (bytes, _) = respond(fabric, bank, lanes, line, &mut out);
    answers.extend_from_slice(&out[..bytes])
}

// The answers to the lines of a sheet, on a fabric and a bank as they are.
pub fn answer_lines<B: Bank, L: Lanes>(
    heap: Global,
    fabric: &mut Fabric,
    bank: &mut B,
    lanes: &mut L,
    input: &[u8],
) -> Result<Vec<u8>, AllocError>
    ensures { IfOk result (λ v. v.items ≡ answers_from (meaning fabric.old) (B.ports bank.old) (L.queues lanes.old) (lines_of input.now)) }
{
    let mut answers = Vec::new(heap);
    for line in lines(input) {
        add_answer(fabric, bank, lanes, line, &mut answers)?;
    }
    Ok(answers)
}

// The answers to a sheet, on a fabric that is started on a new bank.
pub fn answer_sheet(heap: Global, input: &[u8]) -> Result<Vec<u8>, AllocError>
    ensures { IfOk result (λ v. v.items ≡ sheet_text input.now) }
{
    if input.len() > MOST_BYTES {
        let mut out = [0u8; ANSWER];
        let bytes = write_no(&mut out, Reason::LongInput, 0);
        let mut answers = Vec::new(heap);
        answers.extend_from_slice(&out[..bytes])?;
        return Ok(answers);
    }
    let mut bank = RecordBank::new(PORTS);
    let mut lanes = RingLanes::new();
    let mut fabric = Fabric::new();
    let _ = perform(&mut fabric, &mut bank, &mut lanes, &Call::Start);
    answer_lines(heap, &mut fabric, &mut bank, &mut lanes, input)
}
