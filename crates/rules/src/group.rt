// The group rule: a set can fail if it lies within one of the masks, or has at most one member.
ghost use Rattle.std.specs.Prelude.{◌≡◌, ℕ, ◌≤◌, Bool, ◌&&◌, ◌||◌, List, [], length, MatchOption, MatchResult};
ghost use Rattle.refusals.specs.declared.Refusal.TheVariants.{UnlawfulRule};
ghost use Rattle.rules.specs.Rules.{Sized, Apart};
ghost use Rattle.rules.specs.Flaws.{GroupFlaw};
ghost use Rattle.rules.specs.Group.{lies, group_fails, Below, GroupMade};
ghost use Rattle.rules.specs.GroupLaws.{group-own, group-part, group-single};
ghost use Rattle.std.proofs.Common.{rules, arith};

use crate::Rule;
use crate::count::is_few;
use crate::flaw::Flaw;
use crate::making::{Masks, station_count};
use arrayvec::ArrayVec;
use refusals::Refusal;
use sets::{among, within};

// Up to 16 masks of stations that may be broken together.
#[derive(Drop)]
pub struct GroupRule {
    n: u8,
    masks: ArrayVec<u16, 16>,
    ghost sized: { Sized n },
    ghost few: { length masks.items ≤ 16 },
    ghost below: { Below n masks.items },
    ghost apart: { Apart n (group_fails n masks.items) },
}

impl GroupRule {
    // Three stations and no masks, a lawful rule to be filled by make.
    pub fn new() -> Self
        ensures { (result.n ≡ 3) × (result.masks.items ≡ []) }
    {
        GroupRule {
            n: 3,
            masks: ArrayVec::new(),
        }
    }

    // The rule of n and these masks, or what keeps them from making one.
    fn lawful(n: u16, masks: &[u16]) -> Result<GroupRule, Flaw>
        ensures { MatchResult result (λ q. GroupMade n masks.now × (q.n ≡ n) × (q.masks.items ≡ masks.now)) (λ f. GroupFlaw n masks.now f × (GroupMade n masks.now → ⊥)) }
    {
        let asked = Masks {
            n: station_count(n)?,
            masks,
        };
        let kept = ArrayVec::try_from(masks).map_err(|_| Flaw::ManyMasks)?;
        // An Option and no Result, since the search answers a flaw where there is one.
        if let Some(flaw) = asked.flaw() {
            return Err(flaw);
        }
        Ok(GroupRule {
            n: asked.n,
            masks: kept,
        })
    }

    // What keeps n and these masks from making a rule, if anything does.
    pub fn flaw(n: u16, masks: &[u16]) -> Option<Flaw>
        ensures { MatchOption result (GroupMade n masks.now) (λ f. GroupFlaw n masks.now f × (GroupMade n masks.now → ⊥)) }
    {
        GroupRule::lawful(n, masks).err()
    }

    // Fills the rule with n and these masks, or refuses and leaves it as it was.
    pub fn make(&mut self, n: u16, masks: &[u16]) -> Result<(), Refusal>
        ensures made { MatchResult result (λ _. GroupMade n masks.now) (λ e. (e ≡ UnlawfulRule) × (GroupMade n masks.now → ⊥)) }
        ensures after { MatchResult result (λ _. (self.new.n ≡ n) × (self.new.masks.items ≡ masks.now)) (λ _. self.new ≡ self.old) }
    {
        *self = GroupRule::lawful(n, masks)?;
        Ok(())
    }
}

// Whether the set lies within one of the masks.
// A loop by a rule of the project: one over the borrowed slice of masks decides whether a set lies within one of them.
#[tactic(auto, using(crate::specs::GroupLaws::lies_from_place))]
fn lies_within(masks: &[u16], set: u16) -> bool
    ensures { result ≡ lies masks.now set }
{
    for m in masks {
        if within(set, *m) {
            return true;
        }
    }
    false
}

impl Rule for GroupRule {
    ghost stations = { λ r. r.n };

    ghost fails = { λ r. group_fails r.n r.masks.items };

    ghost sized = { first_of (Prim.search rules, Prim.grind (arith, Self.row.coded.inj)) };

    ghost own = { λ r. group-own r.n r.sized.1 r.masks.items };

    ghost part = { λ r. group-part r.n r.sized.1 r.masks.items };

    ghost single = { λ r. group-single r.n r.sized.1 r.masks.items };

    ghost apart = { first_of (Prim.search rules, Prim.grind (arith, Self.row.coded.inj)) };

    fn n(&self) -> u8 {
        self.n
    }

    fn can_fail(&self, set: u16) -> bool {
        among(set, self.n) && (is_few(set, 1) || lies_within(&self.masks, set))
    }
}
