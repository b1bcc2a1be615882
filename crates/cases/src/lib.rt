// The worked cases: as theorems on one contract, and the same cases asked of the code.
#![tactic(auto)]

ghost use Rattle.std.specs.Prelude.{◌≡◌, ℕ, true, Decides};
ghost use Rattle.rules.specs.Count.{CountMade};
ghost use Rattle.rules.specs.Group.{GroupMade};
ghost use Rattle.cases.specs.Cases.{WorkedCases};

use rules::count::CountRule;
use rules::group::GroupRule;

// Whether the numbers make a count rule.
fn count_made(n: u16, t: u16) -> bool
    ensures { Decides result (CountMade n t) }
{
    CountRule::new(n, t).is_ok()
}

// Whether the masks make a group rule of six stations.
fn group_made(masks: &[u16]) -> bool
    ensures { Decides result (GroupMade 6 masks.now) }
{
    let mut rule = GroupRule::new();
    rule.make(6, masks).is_ok()
}

// Whether the count rules of the worked cases are made and refused as they should be.
fn counts_hold() -> bool
    ensures { result ≡ true }
{
    count_made(5, 2)
        & count_made(16, 7)
        & !count_made(4, 2)
        & !count_made(16, 8)
        & !count_made(3, 0)
}

// Whether the group rules are.
fn groups_hold() -> bool
    ensures { result ≡ true }
{
    group_made(&[0b000111, 0b011000])
        & !group_made(&[0b000111, 0b111000])
        & !group_made(&[0b011111])
}

// The worked cases hold, and the code answers by them.
pub fn cases_hold() -> bool
    ensures value { result ≡ true }
    ensures cases { WorkedCases }
{
    counts_hold() & groups_hold()
}

#[cfg(test)]
mod tests;
