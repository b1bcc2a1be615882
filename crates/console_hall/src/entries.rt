// The entries of a script, from bytes.
ghost use Rattle.std.specs.Prelude.{◌≡◌, IfOk};
ghost use Rattle.std.specs.Int.{w16, from_be_bytes};
ghost use Rattle.console_hall.specs.Making.{entries_in};

use std::alloc::{AllocError, Global};

// The entry that two bytes are, the high one first.
fn entry(pair: &[u8; 2]) -> u16
    ensures { result ≡ from_be_bytes w16 pair.now }
{
    u16::from_be_bytes(*pair)
}

// All entries that the bytes are.
pub fn entries(heap: Global, bytes: &[u8]) -> Result<Vec<u16>, AllocError>
    ensures { IfOk result (λ v. v.items ≡ entries_in bytes.now) }
{
    let (pairs, _) = bytes.as_chunks::<2>();
    pairs.iter().map(entry).collect(heap)
}
