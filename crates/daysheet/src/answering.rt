// The answer to a line: its command is carried out, and the answer line written into a lent buffer. Fabric, bank and lanes go beside one another: as one struct of references each method would say of each that it stays the same one.
ghost use Rattle.std.specs.Prelude.{◌≡◌};
ghost use Rattle.fabric.specs.States.{meaning};
ghost use Rattle.text.specs.Told.{asked_by};
ghost use Rattle.text.specs.Answers.{Wrote};
ghost use Rattle.daysheet.specs.Replies.{table_answer, said_as, acting, acted, obeyed, by_sheet, said_text, line_refusal, Responds, Answers};

use crate::reply::{LineRefusal, Reply, Said};
use bank::bank::Bank;
use bank::image::write_image;
use fabric::declined::Declined;
use fabric::fabric::Fabric;
use lanes::lanes::Lanes;
use manager::call::{Answer, Call};
use manager::performing::perform;
use table::refusal::Refusal;
use text::answer::{
    ANSWER, IMAGE, write_no, write_ok, write_ok_image, write_ok_one, write_ok_three,
};
use text::command::Command;
use text::parse::parse;

// The image of a port's table.
fn tell_table<B: Bank>(bank: &B, port: usize) -> Result<Said, Declined>
    ensures { result ≡ table_answer (B.ports bank.now) port }
{
    let mut image = [0u8; IMAGE];
    write_image(bank, port, &mut image)?;
    Ok(Said::Image(image))
}

// What the manager answers, in the sheet's words.
fn say(answer: Result<Answer, Declined>) -> Result<Said, Declined>
    ensures { result ≡ said_as answer }
{
    answer.map(Said::from)
}

// Carries out a command.
fn act<B: Bank, L: Lanes>(
    fabric: &mut Fabric,
    bank: &mut B,
    lanes: &mut L,
    command: &Command,
) -> Result<Said, Declined>
    ensures { acting result (meaning fabric.new) (B.ports bank.new) (L.queues lanes.new) ≡ acted (meaning fabric.old) (B.ports bank.old) (L.queues lanes.old) (asked_by command.now) }
{
    match command {
        Command::Reserve {
            number,
            level,
            weight,
            path,
        } => {
            let path = path.as_slice();
            let call = Call::Reserve {
                number: *number,
                level: *level,
                weight: *weight,
                path,
            };
            say(perform(fabric, bank, lanes, &call))
        }
        Command::Release(number) => say(perform(fabric, bank, lanes, &Call::Release(*number))),
        Command::Shut(port) => say(perform(fabric, bank, lanes, &Call::Shut(*port))),
        Command::Reopen(port) => say(perform(fabric, bank, lanes, &Call::Reopen(*port))),
        Command::Table(port) => tell_table(bank, *port),
    }
}

// A refusal that the sheet found, which names its own place.
// A function, since `From` is the conversion of a refusal that names no place.
fn by_sheet(refusal: Refusal) -> Declined
    ensures { result ≡ by_sheet refusal }
{
    Declined {
        refusal,
        place: refusal.place,
    }
}

// Carries out a line's command, or refuses the line.
#[tactic(auto, unfolding(crate::specs::Replies::obeyed))]
fn obey<B: Bank, L: Lanes>(
    fabric: &mut Fabric,
    bank: &mut B,
    lanes: &mut L,
    line: &[u8],
) -> Result<Said, Declined>
    ensures { acting result (meaning fabric.new) (B.ports bank.new) (L.queues lanes.new) ≡ obeyed (meaning fabric.old) (B.ports bank.old) (L.queues lanes.old) line.now }
{
    let command = parse(line).map_err(by_sheet)?;
    act(fabric, bank, lanes, &command)
}

// Writes the answer of an accepted line.
fn write_said(out: &mut [u8; ANSWER], said: &Said) -> usize
    ensures { Wrote out.old out.new 0 result (said_text said.now) }
{
    match said {
        Said::Nothing => write_ok(out),
        Said::Released(slots) => write_ok_one(out, *slots),
        Said::Reserved(spacing, grant, slots) => write_ok_three(
            out,
            *spacing,
            *grant as usize,
            *slots,
        ),
        Said::Image(image) => write_ok_image(out, image),
    }
}

// Answers a line: its answer stands at the front of the buffer, whose rest stays as it was. Answers how many bytes it has, or the refusal with them.
pub(crate) fn respond<B: Bank, L: Lanes>(
    fabric: &mut Fabric,
    bank: &mut B,
    lanes: &mut L,
    line: &[u8],
    out: &mut [u8; ANSWER],
) -> (usize, Option<Declined>)
    ensures { Responds (obeyed (meaning fabric.old) (B.ports bank.old) (L.queues lanes.old) line.now) out.old out.new result.0 result.1 (meaning fabric.new) (B.ports bank.new) (L.queues lanes.new) }
{
    // Both at once, a count and perhaps a refusal, so a pair and no Result.
    match obey(fabric, bank, lanes, line) {
        Ok(said) => (write_said(out, &said), None),
        Err(declined) => (
            write_no(out, declined.refusal.reason, declined.place),
            Some(declined),
        ),
    }
}

// Answers line `number` of a sheet, and notes the line's number beside a refusal.
pub fn answer_line<B: Bank, L: Lanes>(
    fabric: &mut Fabric,
    bank: &mut B,
    lanes: &mut L,
    number: usize,
    line: &[u8],
    out: &mut [u8; ANSWER],
) -> Reply
    ensures { Answers number (obeyed (meaning fabric.old) (B.ports bank.old) (L.queues lanes.old) line.now) out.old out.new result (meaning fabric.new) (B.ports bank.new) (L.queues lanes.new) }
{
    let (bytes, declined) = respond(fabric, bank, lanes, line, out);
    Reply {
        bytes,
        refused: noted(number, declined),
    }
}

// A refusal with the line's number beside it.
fn noted(number: usize, declined: Option<Declined>) -> Option<LineRefusal>
    ensures { result ≡ line_refusal number declined }
{
    declined.map(|Declined { refusal, place }| LineRefusal {
        refusal,
        place,
        line: number,
    })
}
