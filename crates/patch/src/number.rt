// The number of a patch: hexadecimal digit i, from the lowest, is the box under station i.
ghost use Rattle.std.specs.Prelude.{◌≡◌, true, false, ◌||◌, if◌then◌else◌, MatchResult, ◌==◌};
ghost use Rattle.refusals.specs.declared.Refusal.{Refusal};
ghost use Rattle.refusals.specs.declared.Refusal.TheVariants.{DigitTwice};
ghost use Rattle.sets.specs.Sets.{has, mask_of};
ghost use Rattle.patch.specs.Boxes.{box_of, OneEach, Twice, all_once, boxes};

use refusals::Refusal;
use sets::{contains, with};

// The boxes under sixteen stations, no box twice.
#[derive(Clone, Copy)]
pub struct Patch {
    number: u64,
    ghost once: { all_once number ≡ true },
}

// Hexadecimal digit i, from the lowest, of a number; 0 where i is 16 or more.
#[tactic(auto, using(crate::specs::Digits::box_high), unfolding(crate::specs::Boxes::box_of))]
fn digit(number: u64, i: u8) -> u8
    ensures { result ≡ box_of number i }
{
    (number.checked_shr(4 * u32::from(i)).unwrap_or(0) % 16) as u8
}

// The boxes seen, with b as well; refused where b was seen before.
fn join(seen: u16, b: u8) -> Result<u16, Refusal>
    ensures { MatchResult result (λ more. (has seen b ≡ false) × (more ≡ mask_of 16 (λ j. has seen j || b == j))) (λ e. (e ≡ DigitTwice) × (has seen b ≡ true)) }
{
    if contains(seen, b) {
        return Err(Refusal::DigitTwice);
    }
    Ok(with(seen, b))
}

impl Patch {
    // The patch of a number, refused where a digit occurs twice.
    pub fn new(number: u64) -> Result<Patch, Refusal>
        ensures made { MatchResult result (λ p. (p.number ≡ number) × OneEach (box_of number)) (λ e. (e ≡ DigitTwice) × Twice number) }
    {
        let mut seen = 0;
        for i in 0..16 {
            seen = join(seen, digit(number, i))?;
        }
        Ok(Patch { number })
    }

    // The box under a station.
    pub fn under(&self, i: u8) -> u8
        ensures { result ≡ box_of self.now.number i }
    {
        digit(self.number, i)
    }

    // The boxes gathered, with the box under station i as well where the station is in the set.
    fn gather(&self, under: u16, set: u16, i: u8) -> u16
        ensures { result ≡ (if has set i then mask_of 16 (λ j. has under j || box_of self.now.number i == j) else under) }
    {
        if contains(set, i) {
            with(under, self.under(i))
        } else {
            under
        }
    }

    // The boxes under the stations of a set.
    pub fn down(&self, set: u16) -> u16
        ensures { result ≡ boxes (box_of self.now.number) set }
    {
        (0..16).fold(0, |under, i| self.gather(under, set, i))
    }
}
