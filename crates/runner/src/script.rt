// Call scripts: commands as bytes, each a byte that says which and its arguments, of fixed width and big-endian.
ghost use Rattle.std.specs.Prelude.{◌≡◌, ◌+◌, ◌<◌, length, slice_index};
ghost use Rattle.std.specs.Iterator.{at_most};
ghost use Rattle.manager.specs.Calls.{release};
ghost use Rattle.runner.specs.Commands.{call, arrive, told, order_of, half_at, word_at, with_bytes, reserve_from, command_from, step_of, orders_of};
ghost use Rattle.runner.specs.Orders.{bytes_left, orders_left, Orders};

// A call of the manager, as a script has it. A path's ports are bytes of the script; the manager's own `Call` would lend them as numbers from a buffer, which an iterator cannot hand out.
#[derive(Clone, Copy)]
pub(crate) enum Request<'a> {
    Start,
    Reserve {
        number: u32,
        level: u32,
        weight: u32,
        hops: &'a [u8],
    },
    Release(u32),
    Shut(usize),
    Reopen(usize),
    Pick(usize),
}

// A command of a script: a call, or a packet that arrives at a lane of a port.
#[derive(Clone, Copy)]
pub(crate) enum Command<'a> {
    Call(Request<'a>),
    Arrive { port: usize, lane: u8, length: u16 },
}

// The first command of a script, and the script behind it.
#[derive(Clone, Copy)]
pub(crate) struct Step<'a> {
    pub(crate) command: Command<'a>,
    pub(crate) rest: &'a [u8],
}

// The number of four bytes from a place on.
fn word_at(bytes: &[u8], at: usize) -> u32
    requires { at + 3 < length bytes.now }
    ensures { result ≡ word_at bytes.now at }
{
    u32::from_be_bytes([bytes[at], bytes[at + 1], bytes[at + 2], bytes[at + 3]])
}

// A command whose arguments are so many bytes, if they are there.
fn taking<'a>(args: &'a [u8], bytes: usize, command: Command<'a>) -> Option<Step<'a>>
    ensures { told result ≡ with_bytes bytes args.now (order_of command.entry) }
{
    let rest = args.get(bytes..)?;
    Some(Step { command, rest })
}

// A reserve, by its arguments.
fn read_reserve<'a>(args: &'a [u8]) -> Option<Step<'a>>
    ensures { told result ≡ reserve_from args.now }
{
    let end = 13 + *args.get(12)? as usize;
    let request = Request::Reserve {
        number: word_at(args, 0),
        level: word_at(args, 4),
        weight: word_at(args, 8),
        hops: args.get(13..end)?,
    };
    taking(args, end, Command::Call(request))
}

// A release, by its argument.
fn read_release<'a>(args: &'a [u8]) -> Option<Step<'a>>
    ensures { told result ≡ with_bytes 4 args.now (call (release (word_at args.now 0))) }
{
    let word = args.first_chunk()?;
    let number = u32::from_be_bytes(*word);
    taking(args, 4, Command::Call(Request::Release(number)))
}

// An arrival, by its arguments.
fn read_arrival<'a>(args: &'a [u8]) -> Option<Step<'a>>
    ensures { told result ≡ with_bytes 4 args.now (arrive (slice_index args.now 0) (slice_index args.now 1) (half_at args.now 2)) }
{
    let [port, lane, high, low] = *args.first_chunk::<4>()?;
    let command = Command::Arrive {
        port: port as usize,
        lane,
        length: u16::from_be_bytes([high, low]),
    };
    taking(args, 4, command)
}

// The first byte, or 0 where there is none.
fn first_byte(bytes: &[u8]) -> usize
    ensures { result ≡ slice_index bytes.now 0 }
{
    // 0 and no Option: who takes the arguments counts them, and 0 is what the definition says of none.
    bytes.first().map_or(0, |byte| *byte as usize)
}

// A command of a kind, by its arguments.
fn read_command<'a>(kind: u8, args: &'a [u8]) -> Option<Step<'a>>
    ensures { told result ≡ command_from kind args.now }
{
    let port = first_byte(args);
    match kind {
        0 => taking(args, 0, Command::Call(Request::Start)),
        1 => read_reserve(args),
        2 => read_release(args),
        3 => taking(args, 1, Command::Call(Request::Shut(port))),
        4 => taking(args, 1, Command::Call(Request::Reopen(port))),
        5 => taking(args, 1, Command::Call(Request::Pick(port))),
        6 => read_arrival(args),
        _ => None,
    }
}

// The first command; none where the script ends, is cut off or goes on with another byte than a command's.
fn first_step<'a>(script: &'a [u8]) -> Option<Step<'a>>
    ensures { told result ≡ step_of script.now }
{
    match script {
        [kind, args @ ..] => read_command(*kind, args),
        [] => None,
    }
}

// The commands of a script that are still to come.
#[derive(Clone, Copy)]
pub(crate) struct Commands<'a> {
    pub(crate) rest: &'a [u8],
}

// The commands of a script.
pub(crate) fn commands_of<'a>(script: &'a [u8]) -> Commands<'a>
    ensures { orders_left result ≡ orders_of script.now }
{
    Commands { rest: script }
}

impl<'a> Iterator for Commands<'a> {
    type Item = Command<'a>;

    ghost remaining = { λ s. at_most (bytes_left s) };

    ghost next_gives = { Orders };

    fn next(&mut self) -> Option<Command<'a>> {
        let step = first_step(self.rest)?;
        self.rest = step.rest;
        Some(step.command)
    }
}
