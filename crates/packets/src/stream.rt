// Packets in a stream, each behind its size.
ghost use Rattle.std.specs.Prelude.{Decides};
ghost use Rattle.packets.specs.Stream.{PacketSize, SizeOf};

use super::fields::MAX_PACKET;
use refusals::Refusal;

const MIN_PACKET: usize = 4;

// Whether a packet in a stream may have so many bytes.
fn may_be_size(n: usize) -> bool
    ensures { Decides result (PacketSize n) }
{
    (MIN_PACKET..=MAX_PACKET).contains(&n) && n % 4 == 0
}

// How many bytes the packet has that stands behind these four bytes of a stream.
pub fn packet_size(head: [u8; 4]) -> Result<usize, Refusal>
    ensures value { SizeOf head result }
{
    let n = u32::from_be_bytes(head) as usize;
    if may_be_size(n) {
        Ok(n)
    } else {
        Err(Refusal::BrokenLayout)
    }
}
