// The list that a message is written from, and how many bytes it takes. The list and the lent
// bytes are no struct: `write_message` has them apart, and would make it only to call these.
ghost use Rattle.std.specs.Prelude.{◌≡◌, ℕ, ◌+◌, ◌^◌, ◌<◌, ◌≤◌, List, ◌∷◌, map, length, MatchOption};
ghost use Rattle.std.specs.List.{between, flat_map, AllByRecursion};
ghost use Rattle.packets.specs.Osc.{Plain, Field, Fields, Encoding};
ghost use Rattle.packets.specs.Encode.{fill_len, text_bytes, blob_bytes, encode};
ghost use Rattle.packets.specs.Write.{entry_bytes, entry_value, letter_of, Inside, Placed, content_of, Encodable, Sendable, Broken};

use super::fields::{Argument, behind_byte, fill_len, within_packet, zero_at};

// A part of the lent bytes: those at `from` and on, up to the one at `to`, which is left out.
#[derive(Clone, Copy, Debug)]
pub struct Place {
    pub from: usize,
    pub to: usize,
}

// An argument to be written; a text or a blob is a place in the lent bytes.
pub type Entry = Argument<Place>;

// How many bytes n bytes take with their fill bytes.
fn filled_len(n: usize) -> usize
    requires { n + 3 < 2 ^ 64 }
    ensures { result ≡ n + fill_len n }
{
    n + fill_len(n)
}

// The bytes at a place.
fn part<'a>(lent: &'a [u8], place: Place) -> Option<&'a [u8]>
    ensures { MatchOption result (((place.from ≤ place.to) × (place.to ≤ length lent.now)) → ⊥) (λ s. (place.from ≤ place.to) × (place.to ≤ length lent.now) × (s.now ≡ between place.from place.to lent.now)) }
{
    lent.get(place.from..place.to)
}

// How many bytes a string takes, or `None` where a zero byte stands in it.
fn text_size(s: &[u8]) -> Option<usize>
    ensures { MatchOption result (Plain s.now → ⊥) (λ n. Plain s.now × (n ≡ length (text_bytes s.now))) }
{
    zero_at(s).is_none().then_some(filled_len(s.len() + 1))
}

// The most bytes that a blob has: as many as an int32 can say.
const MAX_BLOB: usize = i32::MAX as usize;

// How many bytes a blob takes.
fn blob_size(b: &[u8]) -> Option<usize>
    ensures { MatchOption result (2 ^ 31 ≤ length b.now) (λ n. (length b.now < 2 ^ 31) × (n ≡ length (blob_bytes b.now))) }
{
    (b.len() <= MAX_BLOB).then_some(4 + filled_len(b.len()))
}

// How many bytes an entry takes, or `None` where no packet can hold it.
fn entry_size(e: Entry, lent: &[u8]) -> Option<usize>
    ensures { MatchOption result (Inside lent.now e → (bs rest : List ℕ) → Field (entry_value lent.now e) bs rest → ⊥) (λ n. Inside lent.now e × (n ≡ length (entry_bytes lent.now e)) × Encodable (entry_value lent.now e)) }
{
    match e {
        Entry::Number(_) => Some(4),
        Entry::Text(place) => text_size(part(lent, place)?),
        Entry::Blob(place) => blob_size(part(lent, place)?),
    }
}

// How many bytes the entries take, or `None` where no packet can hold them.
fn fields_size(entries: &[Entry], lent: &[u8]) -> Option<usize>
    ensures { MatchOption result (Placed lent.now entries.now → (bs : List ℕ) → Fields (map (entry_value lent.now) entries.now) bs → length bs ≤ 4096 → ⊥) (λ n. AllByRecursion (Sendable lent.now) entries.now × (n ≡ length (flat_map (entry_bytes lent.now) entries.now))) }
{
    let mut total = 0;
    for e in entries {
        let size = entry_size(*e, lent)?;
        total = within_packet(total, size)?;
    }
    Some(total)
}

// How many bytes the type tag string takes, or `None` where no packet can hold it.
fn tags_size(entries: &[Entry]) -> Option<usize>
    ensures { MatchOption result (4096 < length entries.now) (λ n. n ≡ length (text_bytes (44 ∷ map letter_of entries.now))) }
{
    let letters = within_packet(0, entries.len())?;
    Some(filled_len(letters + 2))
}

// How many bytes the message takes, or `None` where there is no such message.
pub(crate) fn message_size(address: &[u8], entries: &[Entry], lent: &[u8]) -> Option<usize>
    ensures { MatchOption result (Broken address.now lent.now entries.now) (λ n. Placed lent.now entries.now × (n ≡ length (encode (content_of address.now lent.now entries.now))) × Encoding (content_of address.now lent.now entries.now) (encode (content_of address.now lent.now entries.now))) }
{
    behind_byte(b'/', address)?;
    let head = text_size(address)?;
    let tags = tags_size(entries)?;
    let fields = fields_size(entries, lent)?;
    within_packet(head, within_packet(tags, fields)?)
}
