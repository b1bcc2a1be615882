// The arguments of a message, read one behind another.
ghost use Rattle.std.specs.Prelude.{◌≡◌, ℕ, ◌+◌, ◌^◌, ◌<◌, ◌≤◌, List, length, ℤ, pos, MatchBool, MatchOption, ◌≢◌};
ghost use Rattle.std.specs.Int.{w32};
ghost use Rattle.std.proofs.Common.{to_z};
ghost use Rattle.std.specs.List.{between};
ghost use Rattle.packets.specs.Osc.{Value, tag, Plain, Filled, NumberOf, TextOf, BlobOf, Field};
ghost use Rattle.packets.specs.Encode.{fill_len};
ghost use Rattle.packets.specs.Read.{value, unword, Begins, Ends, Holds};
ghost use Rattle.packets.specs.Write.{letter_of};

// An argument of a message. A text and a blob are given by a B: where a packet is read they are
// parts of the packet itself.
#[derive(Clone, Copy, Debug)]
pub enum Argument<B> {
    // tag 'i': a signed number of 32 bits
    Number(i32),
    // tag 's': any bytes but zero
    Text(B),
    // tag 'b': any bytes
    Blob(B),
}

impl<B> Argument<B> {
    // The type tag.
    pub(crate) fn letter(&self) -> u8
        ensures { result ≡ letter_of self.now }
    {
        match self {
            Argument::Number(_) => b'i',
            Argument::Text(_) => b's',
            Argument::Blob(_) => b'b',
        }
    }
}
// How many fill bytes stand behind n bytes.
pub(crate) fn fill_len(n: usize) -> usize
    ensures { result ≡ fill_len n }
{
    (4 - n % 4) % 4
}

// The most bytes that a packet has.
pub const MAX_PACKET: usize = 4096;

// How many bytes a part takes with more behind it, where a packet can hold as many.
pub(crate) fn within_packet(part: usize, more: usize) -> Option<usize>
    ensures { MatchOption result (4096 < part + more) (λ n. (n ≡ part + more) × (n ≤ 4096)) }
{
    part.checked_add(more).filter(|n| *n <= MAX_PACKET)
}

// How many zero bytes a string of n bytes is written with: the one that ends it and the fill.
pub(crate) fn zeros_len(n: usize) -> usize
    requires { n + 1 < 2 ^ 64 }
    ensures { result ≡ 1 + fill_len (n + 1) }
{
    1 + fill_len(n + 1)
}

// What stands behind the byte in front, where it is the one that is asked for.
pub(crate) fn behind_byte<'a>(first: u8, bytes: &'a [u8]) -> Option<&'a [u8]>
    ensures { MatchOption result (Begins first bytes.now → ⊥) (λ rest. Begins first bytes.now × (rest.now ≡ between 1 (length bytes.now) bytes.now)) }
{
    match bytes {
        [b, rest @ ..] if *b == first => Some(rest),
        _ => None,
    }
}

// How many bytes `zero_at` passes together where none of them is zero.
const GROUP: usize = 48;

// Where the first zero byte stands.
pub(crate) fn zero_at(bytes: &[u8]) -> Option<usize>
    ensures { MatchOption result (Plain bytes.now) (Ends bytes.now) }
{
    // By groups first: `contains` tests many bytes at a time, and `position` one.
    let from = GROUP * bytes.chunks(GROUP).position(|group| group.contains(&0))?;
    let n = bytes[from..].iter().position(|b| *b == 0)?;
    Some(from + n)
}

// The first n bytes, and what stands behind them and their fill bytes, which are skipped.
fn cut_filled<'a>(bytes: &'a [u8], n: usize) -> Option<(&'a [u8], &'a [u8])>
    ensures { MatchOption result ((part rest : List ℕ) → Filled part bytes.now rest → length part ≢ n) (λ p. (length p.0.now ≡ n) × Filled p.0.now bytes.now p.1.now) }
{
    let (part, behind) = bytes.split_at_checked(n)?;
    let (_, rest) = behind.split_at_checked(fill_len(n))?;
    Some((part, rest))
}

// The string whose zero byte stands at n, and what stands behind it.
pub(crate) fn cut_text<'a>(bytes: &'a [u8], n: usize) -> Option<(&'a [u8], &'a [u8])>
    requires { Ends bytes.now n }
    ensures { MatchOption result ((s rest : List ℕ) → TextOf s bytes.now rest → ⊥) (λ p. TextOf p.0.now bytes.now p.1.now) }
{
    let (part, rest) = cut_filled(bytes, n + 1)?;
    Some((&part[0..n], rest))
}

// The string at the front.
pub(crate) fn read_text<'a>(bytes: &'a [u8]) -> Option<(&'a [u8], &'a [u8])>
    ensures { MatchOption result ((s rest : List ℕ) → TextOf s bytes.now rest → ⊥) (λ p. TextOf p.0.now bytes.now p.1.now) }
{
    cut_text(bytes, zero_at(bytes)?)
}

// The int32 that four bytes are, the highest byte first.
fn int32(bytes: [u8; 4]) -> i32
    ensures { result ≡ to_z w32 (unword bytes) }
{
    i32::from_be_bytes(bytes)
}

// The int32 at the front.
fn read_number<'a>(bytes: &'a [u8]) -> Option<(i32, &'a [u8])>
    ensures { MatchOption result ((z : ℤ) (rest : List ℕ) → NumberOf z bytes.now rest → ⊥) (λ p. NumberOf p.0 bytes.now p.1.now) }
{
    match bytes {
        [a, b, c, d, rest @ ..] => Some((int32([*a, *b, *c, *d]), rest)),
        _ => None,
    }
}

// How many bytes a blob of this size has; none has a negative size.
fn blob_len(size: i32) -> Option<usize>
    ensures { MatchOption result ((n : ℕ) → size ≢ pos n) (λ n. size ≡ pos n) }
{
    usize::try_from(size).ok()
}

// The blob at the front.
fn read_blob<'a>(bytes: &'a [u8]) -> Option<(&'a [u8], &'a [u8])>
    ensures { MatchOption result ((b rest : List ℕ) → BlobOf b bytes.now rest → ⊥) (λ p. BlobOf p.0.now bytes.now p.1.now) }
{
    let (size, behind) = read_number(bytes)?;
    let n = blob_len(size)?;
    cut_filled(behind, n)
}

// The argument that a type tag names, and what stands behind it.
pub(crate) fn read_argument<'a>(
    letter: u8,
    bytes: &'a [u8],
) -> Option<(Argument<&'a [u8]>, &'a [u8])>
    ensures { MatchOption result ((v : Value) (rest : List ℕ) → tag v ≡ letter → Field v bytes.now rest → ⊥) (λ p. (tag (value p.0) ≡ letter) × Field (value p.0) bytes.now p.1.now) }
{
    match char::from(letter) {
        'i' => {
            let (n, rest) = read_number(bytes)?;
            Some((Argument::Number(n), rest))
        }
        's' => {
            let (s, rest) = read_text(bytes)?;
            Some((Argument::Text(s), rest))
        }
        'b' => {
            let (b, rest) = read_blob(bytes)?;
            Some((Argument::Blob(b), rest))
        }
        _ => None,
    }
}

// Whether the bytes are the arguments that the type tags name, and no more.
pub(crate) fn fit(tags: &[u8], fields: &[u8]) -> bool
    ensures { MatchBool result ((vs : List Value) × Holds tags.now fields.now vs) ((vs : List Value) → Holds tags.now fields.now vs → ⊥) }
{
    let mut rest = fields;
    for letter in tags {
        let Some((_, more)) = read_argument(*letter, rest) else {
            return false;
        };
        rest = more;
    }
    rest.is_empty()
}
