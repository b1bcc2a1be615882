// What is wrong with the numbers and masks of a rule.
ghost use Rattle.std.specs.Prelude.{◌≡◌, ℕ, ◌+◌, ◌^◌, ◌<◌, ◌≤◌, Bool, MatchOption, MatchResult, nat_lt};
ghost use Rattle.sets.specs.Sets.{members, Whole};
ghost use Rattle.rules.specs.Rules.{Sized};
ghost use Rattle.rules.specs.Flaws.{OneOf, StationsFlaw};
ghost use Rattle.rules.specs.Making.{NoneCompletes, Sound, MasksMade, Flawed};

use crate::flaw::Flaw;
use sets::{among, make_up, size};

// The number of stations of a rule, 3 to 16.
pub(crate) fn station_count(n: u16) -> Result<u8, Flaw>
    ensures { MatchResult result (λ stations. (stations ≡ n) × Sized n) (λ f. StationsFlaw n f × (Sized n → ⊥)) }
{
    if n < 3 {
        return Err(Flaw::FewStations);
    }
    if n > 16 {
        return Err(Flaw::ManyStations);
    }
    Ok(n as u8)
}

// Whether the mask leaves out two stations at least, so that no single one makes up all n with it.
fn leaves_two(n: u8, mask: u16) -> bool
    ensures { result ≡ nat_lt (members mask + 1) n }
{
    u16::from(size(mask)) + 1 < u16::from(n)
}

// The masks that are asked for, and how many stations the rule has.
#[derive(Clone, Copy)]
pub(crate) struct Masks<'a> {
    pub(crate) n: u8,
    pub(crate) masks: &'a [u16],
    ghost sized: { Sized n },
}

impl Masks<'_> {
    // The first of the masks that makes up all stations with the set.
    fn completing(&self, set: u16) -> Option<u16>
        ensures { MatchOption result (NoneCompletes self.now.n self.now.masks.now set) (λ m. OneOf m self.now.masks.now × Whole self.now.n m set) }
    {
        self.masks
            .iter()
            .copied()
            .find(|m| make_up(self.n, *m, set))
    }

    // What is wrong with one of the masks.
    fn mask_flaw(&self, mask: u16) -> Option<Flaw>
        ensures { MatchOption result (Sound self.now.n self.now.masks.now mask) (λ f. OneOf mask self.now.masks.now → Flawed self.now.n self.now.masks.now f) }
    {
        if !among(mask, self.n) {
            return Some(Flaw::Stranger { mask });
        }
        if !leaves_two(self.n, mask) {
            return Some(Flaw::OneMissing { mask });
        }
        self.completing(mask).map(|a| Flaw::Together { a, b: mask })
    }

    // What is wrong with the first mask that is not right.
    pub(crate) fn flaw(&self) -> Option<Flaw>
        ensures { MatchOption result (MasksMade self.now.n self.now.masks.now) (Flawed self.now.n self.now.masks.now) }
    {
        self.masks.iter().find_map(|m| self.mask_flaw(*m))
    }
}
