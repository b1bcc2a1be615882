// The count rule: a set can fail if it has at most t members.
ghost use Rattle.std.specs.Prelude.{◌≡◌, ℕ, ◌*◌, ◌<◌, ◌≤◌, Bool, ◌&&◌, MatchOption, MatchResult, nat_le};
ghost use Rattle.refusals.specs.declared.Refusal.TheVariants.{UnlawfulRule};
ghost use Rattle.sets.specs.Sets.{members};
ghost use Rattle.rules.specs.Flaws.{CountFlaw};
ghost use Rattle.rules.specs.Count.{count_fails, CountMade};
ghost use Rattle.rules.specs.CountLaws.{count-own, count-part, count-single, count-apart};
ghost use Rattle.std.proofs.Common.{rules, arith};

use crate::Rule;
use crate::flaw::Flaw;
use crate::making::station_count;
use refusals::Refusal;
use sets::{among, size};

// Of n stations any t may be broken together, and no more.
#[derive(Clone, Copy)]
pub struct CountRule {
    n: u8,
    t: u8,
    ghost made: { CountMade n t },
}

impl CountRule {
    // The rule of these numbers, or what keeps them from making one.
    fn lawful(n: u16, t: u16) -> Result<CountRule, Flaw>
        ensures { MatchResult result (λ c. CountMade n t × (c.n ≡ n) × (c.t ≡ t)) (λ f. CountFlaw n t f × (CountMade n t → ⊥)) }
    {
        let stations = station_count(n)?;
        if t < 1 {
            return Err(Flaw::NoneBroken);
        }
        if 2 * u32::from(t) >= u32::from(n) {
            return Err(Flaw::HalfBroken);
        }
        Ok(CountRule {
            n: stations,
            t: t as u8,
        })
    }

    // What keeps these numbers from making a rule, if anything does.
    pub fn flaw(n: u16, t: u16) -> Option<Flaw>
        ensures { MatchOption result (CountMade n t) (λ f. CountFlaw n t f × (CountMade n t → ⊥)) }
    {
        CountRule::lawful(n, t).err()
    }

    // The rule of these numbers, or a refusal where they make none.
    pub fn new(n: u16, t: u16) -> Result<CountRule, Refusal>
        ensures { MatchResult result (λ c. CountMade n t × (c.n ≡ n) × (c.t ≡ t)) (λ e. (e ≡ UnlawfulRule) × (CountMade n t → ⊥)) }
    {
        Ok(CountRule::lawful(n, t)?)
    }
}

// Whether the set has at most t members.
pub(crate) fn is_few(set: u16, t: u8) -> bool
    ensures { result ≡ nat_le (members set) t }
{
    size(set) <= t
}

impl Rule for CountRule {
    ghost stations = { λ r. r.n };

    ghost fails = { λ r. count_fails r.n r.t };

    ghost sized = { first_of (Prim.search rules, Prim.grind (arith, Self.row.coded.inj)) };

    ghost own = { λ r. count-own r.n r.t };

    ghost part = { λ r. count-part r.n r.t };

    ghost single = { λ r. count-single r.n r.t r.made.1 };

    ghost apart = { λ r. count-apart r.n r.t r.made.0.1 r.made.2 };

    fn n(&self) -> u8 {
        self.n
    }

    fn can_fail(&self, set: u16) -> bool {
        among(set, self.n) && is_few(set, self.t)
    }
}
