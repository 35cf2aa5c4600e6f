ghost use Rattle.std.specs.Prelude.{◌≤◌, length};
ghost use Rattle.std.specs.Option.{ForSome};

// The fields of a line that are still to come: those from place `next` on, or none.
#[derive(Clone, Copy)]
pub struct Fields<'a> {
    pub(crate) line: &'a [u8],
    pub(crate) next: Option<usize>,
    ghost within: { ForSome next (λ at. at ≤ length line.now) },
}
