// Sets of stations: a set is a 16-bit mask, bit i for station i. A number from 16 on names no station of any set.
#![tactic(auto, using(crate::proofs::Operators::operators), unfolding(crate::specs::Sets::has, crate::specs::Sets::among))]

ghost use Rattle.std.specs.Prelude.{◌≡◌, ℕ, Bool, not, ◌&&◌, ◌||◌, ltb, ◌==◌, nat_lt, ◌^◌, if◌then◌else◌};
ghost use Rattle.sets.specs.Sets.{has, mask_of, members, inside, whole, among as is_among};

pub mod text;

// Whether station i is in the set.
pub fn contains(set: u16, i: u8) -> bool
    ensures { result ≡ has set i }
{
    i < 16 && (set >> i) % 2 == 1
}

// The mask of bit i alone, or none where i is 16 or more.
fn bit(i: u8) -> u16
    ensures { result ≡ (if ltb i 16 then 2 ^ i else 0) }
{
    if i < 16 { 1 << i } else { 0 }
}

// The set with station i; as it was where i is 16 or more.
pub fn with(set: u16, i: u8) -> u16
    ensures { result ≡ mask_of 16 (λ j. has set j || i == j) }
{
    set | bit(i)
}

// The set without station i; as it was where i is 16 or more.
pub fn without(set: u16, i: u8) -> u16
    ensures { result ≡ mask_of 16 (λ j. has set j && not (i == j)) }
{
    set & !bit(i)
}

// The stations of a and of b.
pub fn union(a: u16, b: u16) -> u16
    ensures { result ≡ mask_of 16 (λ j. has a j || has b j) }
{
    a | b
}

// All stations below n.
pub fn all(n: u8) -> u16
    ensures { result ≡ mask_of 16 (λ j. ltb j n) }
{
    if n < 16 { (1 << n) - 1 } else { u16::MAX }
}

// The stations below n that are not in the set.
pub fn complement(set: u16, n: u8) -> u16
    ensures { result ≡ mask_of 16 (λ j. nat_lt j n && not (has set j)) }
{
    all(n) & !set
}

// How many stations are in the set.
pub fn size(set: u16) -> u8
    ensures { result ≡ members set }
{
    set.count_ones() as u8
}

// Whether each station of a is in b.
pub fn within(a: u16, b: u16) -> bool
    ensures { result ≡ inside a b }
{
    a & b == a
}

// Whether a and b make up all n stations.
pub fn make_up(n: u8, a: u16, b: u16) -> bool
    ensures { result ≡ whole n a b }
{
    n <= 16 && within(all(n), union(a, b))
}

// Whether each station of the set is below n.
pub fn among(set: u16, n: u8) -> bool
    ensures { result ≡ is_among n set }
{
    n >= 16 || set < 1 << n
}
