// What goes back for a packet: a size and a message.
ghost use Rattle.std.specs.Prelude.{◌≡◌, ℕ, ◌+◌, ◌<◌, ◌≤◌, List, [], ◌++◌, length, MatchResult, pos, nat_le};
ghost use Rattle.packets.specs.declared.fields.Argument.TheVariants.{Number};
ghost use Rattle.packets.specs.Osc.{word, Encoding};
ghost use Rattle.packets.specs.Encode.{encode};
ghost use Rattle.packets.specs.Write.{content_of, Placed};
ghost use Rattle.play.specs.Replies.{framed, content_in, Framed, NoRoom};

use packets::{Entry, write_message};
use refusals::Refusal;

// What is told of a call that is not refused: that it is done, a word's code, or 1 or 0 for a lamp.
#[derive(Clone, Copy)]
pub enum Told {
    Done,
    Word { station: u16, code: u16 },
    // 1 or 0 by rule, as the number in the reply
    Lamp { station: u16, lit: u16 },
}

// What a call comes to: what is told of it, or its refusal.
pub type Reply = Result<Told, Refusal>;

// How many bytes every reply finds room in, with its size.
const ROOM: usize = 28;

// A size as an int32.
fn size_bytes(size: usize) -> [u8; 4]
    requires { size < 65536 }
    ensures { result ≡ word size }
{
    // `as`, since the size is known to fit, and no `From` leads from usize to u32.
    (size as u32).to_be_bytes()
}

// A number as an argument to be written.
fn number(x: u16) -> Entry
    ensures { result ≡ Number (pos x) }
{
    Entry::Number(x.into())
}

// Writes the size and the message to the front of the buffer, and says how long both are.
fn put(out: &mut [u8], address: &[u8], entries: &[Entry]) -> usize
    requires encodes { Encoding (content_of address.now [] entries.now) (encode (content_of address.now [] entries.now)) }
    requires placed { Placed [] entries.now }
    requires room { 4 + length (encode (content_of address.now [] entries.now)) ≤ length out.old }
    ensures { Framed (content_of address.now [] entries.now) out.old out.new result }
{
    let size = write_message(address, entries, &[], &mut out[4..]).unwrap();
    out[0..4].copy_from_slice(&size_bytes(size));
    size + 4
}

// Writes what is told where there is room for any reply.
fn put_told(told: Told, out: &mut [u8]) -> usize
    requires { 28 ≤ length out.old }
    ensures { Framed (content_in (Ok told)) out.old out.new result }
{
    match told {
        Told::Done => put(out, b"/hall/ok", &[]),
        Told::Word { station, code } => put(out, b"/hall/word", &[number(station), number(code)]),
        Told::Lamp { station, lit } => put(out, b"/hall/lamp", &[number(station), number(lit)]),
    }
}

// Writes a reply where there is room for any.
pub(crate) fn put_reply(reply: Reply, out: &mut [u8]) -> usize
    requires { 28 ≤ length out.old }
    ensures { Framed (content_in reply) out.old out.new result }
{
    match reply {
        Ok(told) => put_told(told, out),
        Err(refusal) => put(out, b"/hall/no", &[number(refusal.number().into())]),
    }
}

// Whether a buffer of so many bytes has room for every reply.
pub fn has_room(bytes: usize) -> bool
    ensures { result ≡ nat_le 28 bytes }
{
    bytes >= ROOM
}

// Writes a reply to the front of the buffer and says how long it is with its size. A buffer under 28 bytes is refused and left as it was.
pub fn write_reply(reply: Reply, out: &mut [u8]) -> Result<usize, Refusal>
    ensures { MatchResult result (Framed (content_in reply) out.old out.new) (NoRoom out.old out.new) }
{
    if has_room(out.len()) {
        Ok(put_reply(reply, out))
    } else {
        Err(Refusal::BufferTooShort)
    }
}
