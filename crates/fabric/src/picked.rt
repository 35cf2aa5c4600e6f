// What a pick answers: the packet that was taken and how many slots were stepped to, or that no slot serves.
#[derive(Clone, Copy, PartialEq, Eq, Debug)]
pub enum Picked {
    Sent {
        lane: u8,
        length: u16,
        passed: usize,
    },
    Idle {
        passed: usize,
    },
}
