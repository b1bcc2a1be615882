// The largest sets of stations that can fail.
ghost use Rattle.std.specs.Prelude.{◌≡◌, ℕ, true, IfOk, Decides};
ghost use Rattle.planner.specs.Largest.{Largest, LargestSets, may_join, no_station_joins, none_may_join};

use rules::Rule;
use sets::{all, contains, with};
use std::alloc::{AllocError, Global};

// Whether station i is not in the set, and the set with it can fail, where the set can.
// One comparison, and no `&&`: where the station is in the set, the set with it is the set, which can fail.
fn may_join<R: Rule>(rule: &R, set: u16, i: u8) -> bool
    requires { R.Rule.fails rule.now set ≡ true }
    ensures { result ≡ may_join (R.Rule.fails rule.now) set i }
{
    rule.can_fail(with(set, i)) != contains(set, i)
}

// Whether no station may join the set, where it can fail.
// A loop: where `all` stood over `&&` here, the processor had to guess twice at each station.
fn no_station_joins<R: Rule>(rule: &R, set: u16) -> bool
    requires { R.Rule.fails rule.now set ≡ true }
    ensures { result ≡ no_station_joins (R.Rule.stations rule.now) (R.Rule.fails rule.now) set }
{
    for i in 0..rule.n() {
        if may_join(rule, set, i) {
            return false;
        }
    }
    true
}

// Whether the set is a largest one that can fail.
pub fn is_largest<R: Rule>(rule: &R, set: u16) -> bool
    ensures value { result ≡ none_may_join (R.Rule.stations rule.now) (R.Rule.fails rule.now) set }
    ensures meaning { Decides result (Largest (R.Rule.fails rule.now) set) }
{
    rule.can_fail(set) && no_station_joins(rule, set)
}

// The largest sets that can fail, in rising order of their masks.
pub fn largest_sets<R: Rule>(heap: Global, rule: &R) -> Result<Vec<u16>, AllocError>
    ensures { IfOk result (λ v. LargestSets (R.Rule.fails rule.now) v.items) }
{
    (0..=all(rule.n()))
        .filter(|set| is_largest(rule, *set))
        .collect(heap)
}
