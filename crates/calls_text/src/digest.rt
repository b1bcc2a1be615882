// The digest of a sheet: FNV-1a of 32 bits over its entries, each as two bytes, the high byte first.
ghost use Rattle.std.specs.Prelude.{◌≡◌, ◌*◌, ◌/◌, ◌%◌, ◌^◌};
ghost use Rattle.std.specs.Int.Bits.{bit_xor};
ghost use Rattle.calls_text.specs.Digests.{mixed, mixed_entry, digest_of};

// What the digest of no bytes is.
const START: u32 = 2166136261;

// The digest with one byte more.
fn mix(hash: u32, byte: u8) -> u32
    ensures { result ≡ mixed hash byte }
{
    (hash ^ u32::from(byte)).wrapping_mul(16777619)
}

// The digest with an entry more.
fn mix_entry(hash: u32, entry: u16) -> u32
    ensures { result ≡ mixed_entry hash entry }
{
    let [high, low] = entry.to_be_bytes();
    mix(mix(hash, high), low)
}

// The digest of a sheet.
#[tactic(auto, unfolding(crate::specs::Digests::digest_of))]
pub fn digest(sheet: &[u16]) -> u32
    ensures { result ≡ digest_of sheet.now }
{
    sheet
        .iter()
        .fold(START, |hash, entry| mix_entry(hash, *entry))
}
