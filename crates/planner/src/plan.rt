// The plan of a rule: its largest sets that can fail, and the kings of each caller.
ghost use Rattle.std.specs.Prelude.{◌≡◌, ℕ, IfOk, MatchResult};
ghost use Rattle.std.specs.Result.{result_ok};
ghost use Rattle.rules.specs.Kings.{kings_of};
ghost use Rattle.rules.specs.Count.{CountMade, count_fails};
ghost use Rattle.rules.specs.Group.{GroupMade, group_fails};
ghost use Rattle.rules.specs.Flaws.{CountFlaw, GroupFlaw};
ghost use Rattle.planner.specs.Plans.{PlanOf, KingsOfAll, NotMade, Answers, Planned};

use crate::largest::largest_sets;
use refusals::Refusal;
use rules::Rule;
use rules::count::CountRule;
use rules::flaw::Flaw;
use rules::group::GroupRule;
use rules::king::{Kings, kings_of};
use sets::text::Listed;
use std::alloc::{AllocError, Global};
use std::fmt;

// What a hirer asks for: a rule by its numbers, or by the groups that may be broken together.
#[derive(Drop)]
pub enum Request {
    Count { n: u16, t: u16 },
    Group { n: u16, masks: Vec<u16> },
}

impl fmt::Display for Request {
    fn fmt<W: fmt::Write>(&self, f: &mut fmt::Formatter<W>) -> fmt::Result {
        match self {
            Request::Count { n, t } => write!(
                f,
                "{n} stations, of which any {t} may be broken together"
            ),
            Request::Group { n, masks } => {
                write!(f, "{n} stations, of which any one may be broken")?;
                for m in masks.iter() {
                    let set = Listed { set: *m };
                    write!(f, ", or all of {set}")?;
                }
                Ok(())
            }
        }
    }
}

// What is to be known of a rule before a hall is hired: kings has the kings of station c at place c.
#[derive(Drop)]
pub struct Plan {
    pub n: u8,
    pub largest: Vec<u16>,
    pub kings: Vec<Kings>,
}

// Why a rule is not made: its refusal, and the flaw that it is refused for, as the rule answers it.
#[derive(Clone, Copy)]
pub struct Unmade {
    pub refusal: Refusal,
    pub flaw: Option<Flaw>,
}

// The kings of the caller, if it is a station.
fn kings_of_caller<R: Rule>(rule: &R, caller: u8) -> Option<Kings>
    ensures { result ≡ result_ok (kings_of (R.Rule.stations rule.now) (R.Rule.fails rule.now) caller) }
{
    kings_of(rule, u16::from(caller)).ok()
}

// The kings of each station.
fn kings_of_all<R: Rule>(heap: Global, rule: &R) -> Result<Vec<Kings>, AllocError>
    ensures { IfOk result (KingsOfAll (R.Rule.stations rule.now) (R.Rule.fails rule.now)) }
{
    (0..rule.n())
        .filter_map(|caller| kings_of_caller(rule, caller))
        .collect(heap)
}

// The plan of a rule.
pub fn plan_of<R: Rule>(heap: Global, rule: &R) -> Result<Plan, AllocError>
    ensures { IfOk result (PlanOf (R.Rule.stations rule.now) (R.Rule.fails rule.now)) }
{
    let largest = largest_sets(heap, rule)?;
    let kings = kings_of_all(heap, rule)?;
    Ok(Plan {
        n: rule.n(),
        largest,
        kings,
    })
}

// The count rule of these numbers, or why they make none. A match, which the check proves alone: `map_err` with a closure would want an answer.
fn count_rule(n: u16, t: u16) -> Result<CountRule, Unmade>
    ensures { MatchResult result (λ r. CountMade n t × (r.n ≡ n) × (r.t ≡ t)) (NotMade (CountMade n t) (CountFlaw n t)) }
{
    match CountRule::new(n, t) {
        Ok(rule) => Ok(rule),
        Err(refusal) => Err(Unmade {
            refusal,
            flaw: CountRule::flaw(n, t),
        }),
    }
}

// The group rule of n stations and these masks, or why they make none. Made in two steps, as the project prescribes, and by a match as above.
fn group_rule(n: u16, masks: &[u16]) -> Result<GroupRule, Unmade>
    ensures { MatchResult result (λ r. GroupMade n masks.now × (r.n ≡ n) × (r.masks.items ≡ masks.now)) (NotMade (GroupMade n masks.now) (GroupFlaw n masks.now)) }
{
    let mut rule = GroupRule::new();
    match rule.make(n, masks) {
        Ok(()) => Ok(rule),
        Err(refusal) => Err(Unmade {
            refusal,
            flaw: GroupRule::flaw(n, masks),
        }),
    }
}

// The plan of a rule that is made, or why it is not.
// A Result in a Result: a refusal is an answer to a line, and `?` serves the want of memory alone.
fn planned<R: Rule + Drop>(
    heap: Global,
    made: Result<R, Unmade>,
) -> Result<Result<Plan, Unmade>, AllocError>
    ensures { IfOk result (Planned (λ r. PlanOf (R.Rule.stations r) (R.Rule.fails r)) made) }
{
    match made {
        Ok(rule) => Ok(Ok(plan_of(heap, &rule)?)),
        Err(unmade) => Ok(Err(unmade)),
    }
}

// The plan of the rule that is asked for, or why there is none.
pub fn answer(heap: Global, request: &Request) -> Result<Result<Plan, Unmade>, AllocError>
    ensures { IfOk result (Answers request.now) }
{
    match request {
        Request::Count { n, t } => planned(heap, count_rule(*n, *t)),
        Request::Group { n, masks } => planned(heap, group_rule(*n, masks.as_slice())),
    }
}
