ghost use Rattle.std.specs.Prelude.{◌≡◌};
ghost use Rattle.lanes.specs.Queues.{is_packet};

// A packet has at most so many bytes.
pub const MOST_BYTES: u16 = 4096;

// Whether a packet may have so many bytes.
pub fn is_packet(bytes: u16) -> bool
    ensures { result ≡ is_packet bytes }
{
    (1..=MOST_BYTES).contains(&bytes)
}
