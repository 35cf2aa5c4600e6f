ghost use Rattle.std.specs.Prelude.{◌≡◌, ◌≤◌, map, length};
ghost use Rattle.text.specs.Sizes.{most_ports};
ghost use Rattle.text.specs.Commands.{fewest, most, value_of, asks, by_count, command_of};
ghost use Rattle.text.specs.Gathered.{form_first};
ghost use Rattle.text.specs.Spelled.{Reads};
ghost use Rattle.text.specs.Told.{ports_of, asked_by, answered};

use crate::command::Command;
use crate::cut::fields;
use crate::field::Field;
use crate::form::Form;
use crate::gather::gather;
use crate::numbers::Given;
use crate::path::Path;
use crate::refuse::refuse;
use table::refusal::{Reason, Refusal};

// The form that a line's first field names.
fn form_of(first: Option<Field>) -> Result<Form, Refusal>
    ensures { result ≡ form_first first.entry }
{
    let unknown = refuse(Reason::UnknownWord, 0);
    let Some(Field::Word(word, _)) = first else {
        return Err(unknown);
    };
    Form::of(word).ok_or(unknown)
}

// A loop, as in the static library's `ports_of`: each fills a row by a conversion of its own.
fn path_of(ports: &[Given]) -> Path
    requires { length ports.now ≤ most_ports }
    ensures { ports_of result ≡ map value_of ports.now }
{
    let mut path = Path::empty(0);
    for port in ports {
        path.push(port.value as usize);
    }
    path
}

// What a form asks for with its numbers, of which there are as many as it wants.
fn command_of(form: Form, numbers: &[Given]) -> Command
    requires { (fewest form ≤ length numbers.now) × (length numbers.now ≤ most form) }
    ensures { asked_by result ≡ asks form numbers.now }
{
    let first = numbers[0].value;
    match form {
        Form::Reserve => Command::Reserve {
            number: first,
            level: numbers[1].value,
            weight: numbers[2].value,
            path: path_of(&numbers[3..]),
        },
        Form::Release => Command::Release(first),
        Form::Shut => Command::Shut(first as usize),
        Form::Reopen => Command::Reopen(first as usize),
        Form::Table => Command::Table(first as usize),
    }
}

// The command, if there are as many numbers as the form wants; `end` is the line's end.
fn counted(form: Form, numbers: &[Given], end: usize) -> Result<Command, Refusal>
    ensures { answered result ≡ by_count end form numbers.now }
{
    if numbers.len() < form.fewest() {
        return Err(refuse(Reason::WrongCount, end));
    }
    let most = form.most();
    if most < numbers.len() {
        return Err(refuse(Reason::WrongCount, numbers[most].place));
    }
    Ok(command_of(form, numbers))
}

fn read_command(line: &[u8]) -> Result<Command, Refusal>
    ensures { answered result ≡ command_of line.now }
{
    let mut rest = fields(line);
    let form = form_of(rest.next())?;
    let numbers = gather(rest)?;
    counted(form, numbers.as_slice(), line.len())
}

// What a line asks for, or the first of its three questions that is answered no. A command comes just from its own line.
pub fn parse(line: &[u8]) -> Result<Command, Refusal>
    ensures command { answered result ≡ command_of line.now }
    ensures reads { Reads line.now (answered result) }
{
    read_command(line)
}
