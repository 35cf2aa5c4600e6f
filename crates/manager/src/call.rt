use fabric::picked::Picked;

// A call of the manager, with its arguments.
#[derive(Clone, Copy)]
pub enum Call<'a> {
    Start,
    Reserve {
        number: u32,
        level: u32,
        weight: u32,
        path: &'a [usize],
    },
    Release(u32),
    Shut(usize),
    Reopen(usize),
    Pick(usize),
}

// What an accepted call answers.
#[derive(Clone, Copy)]
pub enum Answer {
    Started,
    // spacing, grant, and how many slots changed
    Reserved(usize, u32, usize),
    // how many slots changed
    Released(usize),
    Shut,
    Reopened,
    Picked(Picked),
}
