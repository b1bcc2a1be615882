// What is made of the stations of a rule, one after another. Loops, since a closure that an iterator calls has to take any number,
// and these are called for the stations of the rule alone.
ghost use Rattle.std.specs.Prelude.{◌≡◌, ℕ, ◌<◌, Bool};
ghost use Rattle.sets.specs.Sets.{mask_of};
ghost use Rattle.rounds.specs.Stations.{Says, Sixteen};

use rules::Rule;
use sets::with;

// How many stations the rule has. They are 16 at most by the rule's law, and `min` says so to the compiler, which then tests no index.
pub(crate) fn count<Q: Rule>(rule: &Q) -> u8
    ensures { result ≡ Q.Rule.stations rule.now }
{
    rule.n().min(16)
}

// The set of the stations that pass a test.
pub(crate) fn set_of<Q: Rule, F: Fn(u8) -> bool>(rule: &Q, test: F) -> u16
    requires { (p : ℕ) → p < 16 → F.pre test p }
    ensures { (t : ℕ → Bool) → Says 16 (F.post test) t → result ≡ mask_of (Q.Rule.stations rule.now) t }
{
    let mut set = 0;
    for p in 0..count(rule) {
        if test(p) {
            set = with(set, p);
        }
    }
    set
}

// Sixteen values: one for each station, and the same one for each number that names none.
pub(crate) fn by_station<Q: Rule, T: Copy, F: Fn(u8) -> T>(rule: &Q, none: T, value: F) -> [T; 16]
    requires { (p : ℕ) → p < 16 → F.pre value p }
    ensures { (f : ℕ → T) → Says 16 (F.post value) f → Sixteen none (Q.Rule.stations rule.now) f result }
{
    let mut values = [none; 16];
    for p in 0..count(rule) {
        values[usize::from(p)] = value(p);
    }
    values
}
