ghost use Rattle.std.specs.Prelude.{◌≡◌, length};
ghost use Rattle.table.specs.Slots.{lane_count};

// Lanes whose packets stand in the caller's bytes, read in place. Each lane has come to a record.
#[derive(Drop)]
pub struct CaptureLanes<'a> {
    pub(crate) bytes: &'a [u8],
    pub(crate) next: [usize; 15],
    ghost long: { length next ≡ lane_count },
}
