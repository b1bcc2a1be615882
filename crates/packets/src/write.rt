// Writes a message into a lent buffer.
ghost use Rattle.std.specs.Prelude.{◌<◌, ◌≤◌, take, IfOk, MatchBool, MatchResult};
ghost use Rattle.packets.specs.Write.{content_of, ReadsAs, Written, Refused};

use super::entries::{Entry, message_size};
use super::put::{put_fields, put_tags, put_text};
use refusals::Refusal;

// Whether a buffer is too short for so many bytes.
fn is_short(room: usize, size: usize) -> bool
    ensures { MatchBool result (room < size) (size ≤ room) }
{
    room < size
}

// Writes the message with this address and these arguments to the front of the buffer, and
// says how many bytes it has. Read again, they are the same message.
pub fn write_message(
    address: &[u8],
    entries: &[Entry],
    lent: &[u8],
    out: &mut [u8],
) -> Result<usize, Refusal>
    ensures made { MatchResult result (Written address.now lent.now entries.now out.old out.new) (Refused address.now lent.now entries.now out.old out.new) }
    ensures read { IfOk result (λ n. ReadsAs (take n out.new) (content_of address.now lent.now entries.now)) }
{
    let size = message_size(address, entries, lent).ok_or(Refusal::BrokenLayout)?;
    if is_short(out.len(), size) {
        return Err(Refusal::BufferTooShort);
    }
    let tags = put_text(out, 0, address);
    let fields = put_tags(out, tags, entries);
    put_fields(out, fields, entries, lent);
    Ok(size)
}
