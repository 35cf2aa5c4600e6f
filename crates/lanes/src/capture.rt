ghost use Rattle.std.specs.Prelude.{◌≡◌, ◌+◌, ◌<◌, length};
ghost use Rattle.lanes.specs.Captures.{two_bytes, counted, record_count, length_of, is_for, Finds};

use crate::packet::is_packet;

// The number of two bytes, the high one first.
fn two_bytes(bytes: &[u8], at: usize) -> u16
    requires { at + 1 < length bytes.now }
    ensures { result ≡ two_bytes bytes.now at }
{
    u16::from_be_bytes([bytes[at], bytes[at + 1]])
}

// How many records there are, if the bytes are as many as their count wants.
fn record_count(bytes: &[u8]) -> Option<usize>
    ensures { result ≡ counted bytes.now }
{
    let count = u16::from_be_bytes(*bytes.first_chunk()?) as usize;
    (bytes.len() == 2 + 3 * count).then_some(count)
}

// The length of record `k`.
pub(crate) fn length_of(bytes: &[u8], k: usize) -> u16
    requires { k < record_count bytes.now }
    ensures { result ≡ length_of bytes.now k }
{
    let count = two_bytes(bytes, 0) as usize;
    two_bytes(bytes, 2 + count + 2 * k)
}

// Whether record `k` is a packet of the lane.
fn is_for(bytes: &[u8], lane: u8, k: usize) -> bool
    requires { k < record_count bytes.now }
    ensures { result ≡ is_for bytes.now lane k }
{
    bytes[2 + k] == lane && is_packet(length_of(bytes, k))
}

// The first record from `from` on that is a packet of the lane.
pub(crate) fn find(bytes: &[u8], from: usize, lane: u8) -> Option<usize>
    ensures { Finds bytes.now from lane result }
{
    let count = record_count(bytes)?;
    (from..count).find(|k| is_for(bytes, lane, *k))
}
