// How answers are printed.
use std::fmt::Display;
use std::{fmt, io};
use table::refusal::Refusal;
use table::slot::Slot;

// A refusal, in this program's words.
#[derive(Drop)]
struct No(Refusal);

impl Display for No {
    fn fmt<W: fmt::Write>(&self, f: &mut fmt::Formatter<W>) -> fmt::Result {
        let Refusal {
            reason,
            place,
            layer,
        } = self.0;
        write!(f, "no {} at {place}, {layer}", reason.number())
    }
}

// What a slot holds.
#[derive(Drop)]
pub(crate) struct Held(pub(crate) Slot);

impl Display for Held {
    fn fmt<W: fmt::Write>(&self, f: &mut fmt::Formatter<W>) -> fmt::Result {
        let Slot { lane, weight } = self.0;
        write!(f, "lane {lane} weight {weight}")
    }
}

// The length of the packet that waits first, if any does.
#[derive(Drop)]
pub(crate) struct Waiting(pub(crate) Option<u16>);

impl Display for Waiting {
    fn fmt<W: fmt::Write>(&self, f: &mut fmt::Formatter<W>) -> fmt::Result {
        match self.0 {
            Some(bytes) => write!(f, "{bytes}"),
            None => f.write_str("none"),
        }
    }
}

// Prints an answer: what was answered by `shown`, or the refusal.
pub(crate) fn tell<T, S: Display + Drop, F: Fn(T) -> S>(
    rt: &HostRuntime,
    answer: Result<T, Refusal>,
    shown: F,
) -> io::Result<()>
    requires { F.IsAlwaysCallable shown }
{
    match answer {
        Ok(what) => println!(rt; "{}", shown(what)),
        Err(refusal) => println!(rt; "{}", No(refusal)),
    }
}
