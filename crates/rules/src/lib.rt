// Rules: how many stations a hall has, and which sets of them can fail, that is, may all be broken together.
#![tactic(auto)]

ghost use Rattle.std.specs.Prelude.{◌≡◌, ℕ, Bool};
ghost use Rattle.rules.specs.Rules.{Sized, Own, Parts, Singles, Apart};

pub mod count;
pub mod flaw;
pub mod group;
pub mod king;
mod making;

// A rule. Its meaning is its number of stations and its answers; asking changes nothing.
pub trait Rule {
    // how many stations there are
    ghost stations: { Self → ℕ };

    // whether a set can fail
    ghost fails: { Self → ℕ → Bool };

    // How many stations there are, 3 to 16.
    fn n(&self) -> u8
        ensures { result ≡ stations self.now };

    // Whether the set can fail. A set with a station from n on cannot.
    fn can_fail(&self, set: u16) -> bool
        ensures { result ≡ fails self.now set };

    ghost sized: { (r : Self) → Sized (stations r) };

    ghost own: { (r : Self) → Own (stations r) (fails r) };

    ghost part: { (r : Self) → Parts (fails r) };

    ghost single: { (r : Self) → Singles (stations r) (fails r) };

    ghost apart: { (r : Self) → Apart (stations r) (fails r) };
}
