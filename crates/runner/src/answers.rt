// The bytes of an answer.
ghost use Rattle.std.specs.Prelude.{◌≡◌, ◌+◌, ◌*◌, ◌≤◌, length};
ghost use Rattle.text.specs.Writers.{Writes};
ghost use Rattle.runner.specs.Bytes.{word, words, layer_byte, picked_bytes, fields_bytes, came_bytes};

use crate::world::Came;
use fabric::declined::Declined;
use fabric::picked::Picked;
use manager::call::Answer;
use table::refusal::Layer;
use text::put::Writer;

// The most bytes that one answer has.
pub(crate) const LONGEST: usize = 17;

// A number of four bytes, the high one first. Greater ones do not occur.
fn put_word(out: &mut Writer, n: usize)
    requires { out.old.at + 4 ≤ length out.old.out.now }
    ensures { Writes out.old out.new (word n) }
{
    let bytes = ((n % 4294967296) as u32).to_be_bytes();
    out.bytes(&bytes);
}

fn put_words(out: &mut Writer, numbers: &[usize])
    requires { out.old.at + 4 * length numbers.now ≤ length out.old.out.now }
    ensures { Writes out.old out.new (words numbers.now) }
{
    for n in numbers {
        put_word(out, *n);
    }
}

fn layer_byte(layer: Layer) -> u8
    ensures { result ≡ layer_byte layer }
{
    layer as u8
}

fn put_picked(out: &mut Writer, picked: Picked)
    requires { out.old.at + 16 ≤ length out.old.out.now }
    ensures { Writes out.old out.new (picked_bytes picked) }
{
    match picked {
        Picked::Sent {
            lane,
            length,
            passed,
        } => put_words(out, &[1, lane as usize, length as usize, passed]),
        Picked::Idle { passed } => put_words(out, &[0, passed]),
    }
}

// The fields of an accepted call.
fn put_fields(out: &mut Writer, answer: Answer)
    requires { out.old.at + 16 ≤ length out.old.out.now }
    ensures { Writes out.old out.new (fields_bytes answer) }
{
    match answer {
        Answer::Reserved(spacing, grant, slots) => put_words(
            out,
            &[spacing, grant as usize, slots],
        ),
        Answer::Released(slots) => put_words(out, &[slots]),
        Answer::Picked(picked) => put_picked(out, picked),
        Answer::Started | Answer::Shut | Answer::Reopened => {}
    }
}

// A refusal: its number, the place that its question names, the layer that found it and the place that this layer named.
fn put_declined(out: &mut Writer, declined: Declined)
    requires { out.old.at + 11 ≤ length out.old.out.now }
    ensures { Writes out.old out.new (came_bytes (Err declined)) }
{
    out.byte(1);
    out.byte(declined.refusal.reason.number());
    put_word(out, declined.place);
    out.byte(layer_byte(declined.refusal.layer));
    put_word(out, declined.refusal.place);
}

// The answer of an accepted command.
fn put_accepted(out: &mut Writer, answer: Option<Answer>)
    requires { out.old.at + 17 ≤ length out.old.out.now }
    ensures { Writes out.old out.new (came_bytes (Ok answer)) }
{
    out.byte(0);
    if let Some(answer) = answer {
        put_fields(out, answer);
    }
}

// Writes the answer of a command.
pub(crate) fn put_came(out: &mut Writer, came: Came)
    requires { out.old.at + 17 ≤ length out.old.out.now }
    ensures { Writes out.old out.new (came_bytes came) }
{
    match came {
        Ok(answer) => put_accepted(out, answer),
        Err(declined) => put_declined(out, declined),
    }
}
