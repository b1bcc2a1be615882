// Packets in a stream, each behind its size.
ghost use Rattle.std.specs.Result.{MatchResult};
ghost use Rattle.console_hall.specs.Streams.{Coming, Unannounced};

use packets::packet_size;
use refusals::Refusal;

// How many bytes the packet has that stands next in the stream, behind its size; none where the bytes that came so far end inside the size or the packet; a refusal where they begin with no size.
pub fn next_packet(bytes: &[u8]) -> Result<Option<usize>, Refusal>
    ensures { MatchResult result (Coming bytes.now) (Unannounced bytes.now) }
{
    let [a, b, c, d, rest @ ..] = bytes else {
        return Ok(None);
    };
    let size = packet_size([*a, *b, *c, *d])?;
    Ok((size <= rest.len()).then_some(size))
}
