// The parts of a message, each written at a place of the buffer that is long enough. The buffer
// and the place are no struct: each function would have one clause more, that it keeps the buffer.
ghost use Rattle.std.specs.Prelude.{◌≡◌, ◌+◌, ◌^◌, ◌<◌, ◌≤◌, ◌∷◌, map, length, replicate};
ghost use Rattle.std.specs.List.{flat_map};
ghost use Rattle.packets.specs.Encode.{text_bytes, blob_bytes};
ghost use Rattle.packets.specs.Write.{entry_bytes, over, letter_of, Inside, Placed};

use super::entries::{Entry, Place};
use super::fields::{fill_len, zeros_len};

const ZEROS: [u8; 4] = [0, 0, 0, 0];

// Writes bytes at a place and says where they end.
fn put(out: &mut [u8], at: usize, bytes: &[u8]) -> usize
    requires { at + length bytes.now ≤ length out.old }
    ensures after { out.new ≡ over out.old at bytes.now }
    ensures end { result ≡ at + length bytes.now }
{
    let end = at + bytes.len();
    out[at..end].copy_from_slice(bytes);
    end
}

// Writes up to four zero bytes.
fn put_zeros(out: &mut [u8], at: usize, n: usize) -> usize
    requires few { n ≤ 4 }
    requires room { at + n ≤ length out.old }
    ensures after { out.new ≡ over out.old at (replicate n 0) }
    ensures end { result ≡ at + n }
{
    put(out, at, &ZEROS[0..n])
}

// A string: its bytes, its zero byte and the fill bytes.
pub(crate) fn put_text(out: &mut [u8], at: usize, s: &[u8]) -> usize
    requires { at + length (text_bytes s.now) ≤ length out.old }
    ensures after { out.new ≡ over out.old at (text_bytes s.now) }
    ensures end { result ≡ at + length (text_bytes s.now) }
{
    let end = put(out, at, s);
    put_zeros(out, end, zeros_len(s.len()))
}

// A blob: how many bytes it has, its bytes and the fill bytes.
fn put_blob(out: &mut [u8], at: usize, b: &[u8]) -> usize
    requires room { at + length (blob_bytes b.now) ≤ length out.old }
    requires short { length b.now < 2 ^ 31 }
    ensures after { out.new ≡ over out.old at (blob_bytes b.now) }
    ensures end { result ≡ at + length (blob_bytes b.now) }
{
    // `as`, since the size is known to fit, and no `From` leads from usize to u32.
    let size = (b.len() as u32).to_be_bytes();
    let head = put(out, at, &size);
    let end = put(out, head, b);
    put_zeros(out, end, fill_len(b.len()))
}

// The type tags of the entries.
fn put_letters(out: &mut [u8], at: usize, entries: &[Entry]) -> usize
    requires { at + length entries.now ≤ length out.old }
    ensures after { out.new ≡ over out.old at (map letter_of entries.now) }
    ensures end { result ≡ at + length entries.now }
{
    let mut end = at;
    for e in entries {
        end = put(out, end, &[e.letter()]);
    }
    end
}

// The type tag string: a comma, a letter for each entry, the zero byte and the fill bytes.
pub(crate) fn put_tags(out: &mut [u8], at: usize, entries: &[Entry]) -> usize
    requires { at + length (text_bytes (44 ∷ map letter_of entries.now)) ≤ length out.old }
    ensures after { out.new ≡ over out.old at (text_bytes (44 ∷ map letter_of entries.now)) }
    ensures end { result ≡ at + length (text_bytes (44 ∷ map letter_of entries.now)) }
{
    let first = put(out, at, b",");
    let end = put_letters(out, first, entries);
    put_zeros(out, end, zeros_len(entries.len() + 1))
}

// The argument that an entry names in the lent bytes.
fn put_entry(out: &mut [u8], at: usize, e: Entry, lent: &[u8]) -> usize
    requires inside { Inside lent.now e }
    requires room { at + length (entry_bytes lent.now e) ≤ length out.old }
    requires short { length (entry_bytes lent.now e) ≤ 4096 }
    ensures after { out.new ≡ over out.old at (entry_bytes lent.now e) }
    ensures end { result ≡ at + length (entry_bytes lent.now e) }
{
    match e {
        Entry::Number(n) => put(out, at, &n.to_be_bytes()),
        Entry::Text(Place { from, to }) => put_text(out, at, &lent[from..to]),
        Entry::Blob(Place { from, to }) => put_blob(out, at, &lent[from..to]),
    }
}

// The arguments, one behind another.
pub(crate) fn put_fields(out: &mut [u8], at: usize, entries: &[Entry], lent: &[u8]) -> usize
    requires inside { Placed lent.now entries.now }
    requires room { at + length (flat_map (entry_bytes lent.now) entries.now) ≤ length out.old }
    requires short { length (flat_map (entry_bytes lent.now) entries.now) ≤ 4096 }
    ensures after { out.new ≡ over out.old at (flat_map (entry_bytes lent.now) entries.now) }
    ensures end { result ≡ at + length (flat_map (entry_bytes lent.now) entries.now) }
{
    let mut end = at;
    for e in entries {
        end = put_entry(out, end, *e, lent);
    }
    end
}
