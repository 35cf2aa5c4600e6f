// Reads a day sheet on standard input and prints an answer line for each of its lines.
#![tactic(auto)]

use daysheet::sheet::{MOST_BYTES, answer_sheet};
use std::io;
use std::io::{Read, Write};

fn main(rt: HostRuntime) -> io::Result<()> {
    let heap = rt.alloc();
    let mut input = Vec::new(heap);
    // One byte more than a sheet may have tells one that is too long.
    rt.stdin()
        .take(MOST_BYTES as u64 + 1)
        .read_to_end(&mut input)?;
    let answers = answer_sheet(heap, input.as_slice())?;
    rt.stdout().write_all(answers.as_slice())
}
