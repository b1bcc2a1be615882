// The search for the smallest word that passes a test, among the codes of a rule's stations. A loop, since its closures are called for
// the stations of the rule alone.
ghost use Rattle.std.specs.Prelude.{◌≡◌, ℕ, ◌<◌, ◌^◌, Bool, Option};
ghost use Rattle.rounds.specs.Stations.{Says};
ghost use Rattle.rounds.specs.Searches.{lower as lower_of, lowest as lowest_of};

use crate::stations::count;
use rules::Rule;

// The lower of the best word so far and a code, if that passes.
fn lower<F: Fn(u16) -> bool>(best: Option<u16>, code: Option<u16>, passes: &F) -> Option<u16>
    requires { (w : ℕ) → w < 2 ^ 16 → F.pre passes.now w }
    ensures { (t : ℕ → Bool) → Says (2 ^ 16) (F.post passes.now) t → result ≡ lower_of t best code }
{
    match code {
        Some(w) if best.is_none_or(|b| w < b) && passes(w) => code,
        _ => best,
    }
}

// The lowest of the best word so far and the stations' codes that pass.
pub(crate) fn lowest<Q: Rule, C: Fn(u8) -> Option<u16>, F: Fn(u16) -> bool>(
    rule: &Q,
    best: Option<u16>,
    code: C,
    passes: F,
) -> Option<u16>
    requires code { (p : ℕ) → p < 16 → C.pre code p }
    requires passes { (w : ℕ) → w < 2 ^ 16 → F.pre passes w }
    ensures { (f : ℕ → Option ℕ) (t : ℕ → Bool) → Says 16 (C.post code) f → Says (2 ^ 16) (F.post passes) t → result ≡ lowest_of t f best (Q.Rule.stations rule.now) }
{
    let mut best = best;
    for p in 0..count(rule) {
        best = lower(best, code(p), &passes);
    }
    best
}
