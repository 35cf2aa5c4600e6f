use crate::path::Path;

// What an accepted line asks for.
#[derive(Clone, Copy)]
pub enum Command {
    Reserve {
        number: u32,
        level: u32,
        weight: u32,
        path: Path,
    },
    Release(u32),
    Shut(usize),
    Reopen(usize),
    Table(usize),
}
