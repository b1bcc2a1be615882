// The kings of a caller, and how many rounds a cue of that caller has.
ghost use Rattle.std.specs.Prelude.{◌≡◌, ℕ, ◌<◌, ◌≤◌, Bool, not, MatchResult};
ghost use Rattle.rules.specs.Kings.{king, with_caller, kings_of_station, kings_of, king_at, rounds_of, KingFacts};

use crate::Rule;
use refusals::Refusal;
use sets::with;

// A caller's kings: the stations whose word the others take over where their lamps are out.
#[derive(Clone, Copy, PartialEq, Eq)]
pub struct Kings {
    pub caller: u8,
    pub set: u16,
    pub count: u8,
}

impl Kings {
    // How many rounds a cue of the caller has.
    pub fn rounds(&self) -> u16
        ensures { result ≡ rounds_of self.now.count }
    {
        3 * u16::from(self.count) + 1
    }

    // King number j, counted from 1, if there are as many.
    pub fn king(&self, j: u8) -> Option<u8>
        ensures { result ≡ king_at self.now j }
    {
        if j < 1 || j > self.count {
            return None;
        }
        Some(king_number(self.caller, j))
    }
}

// King number j of a caller, counted from 1: the other station with j - 1 others below it.
fn king_number(caller: u8, j: u8) -> u8
    requires { 1 ≤ j }
    ensures { result ≡ king caller j }
{
    if j <= caller { j - 1 } else { j }
}

// The kings of the caller under the rule, or a refusal where the caller is no station.
pub fn kings_of<R: Rule>(rule: &R, caller: u16) -> Result<Kings, Refusal>
    ensures value { result ≡ kings_of (R.Rule.stations rule.now) (R.Rule.fails rule.now) caller }
    ensures cases { MatchResult result (KingFacts (R.Rule.stations rule.now) (R.Rule.fails rule.now)) (λ _. R.Rule.stations rule.now ≤ caller) }
{
    if caller >= u16::from(rule.n()) {
        return Err(Refusal::NoSuchStation);
    }
    Ok(first_kings(rule, caller as u8))
}

// Whether the caller and the kings in the set together cannot fail.
fn cannot_fail<R: Rule>(rule: &R, caller: u8, set: u16) -> bool
    ensures { result ≡ not (R.Rule.fails rule.now (with_caller caller set)) }
{
    !rule.can_fail(with(set, caller))
}

// The kings of a station.
fn first_kings<R: Rule>(rule: &R, caller: u8) -> Kings
    requires { caller < R.Rule.stations rule.now }
    ensures value { result ≡ kings_of_station (R.Rule.stations rule.now) (R.Rule.fails rule.now) caller }
    ensures facts { KingFacts (R.Rule.stations rule.now) (R.Rule.fails rule.now) result }
{
    let mut set = 0;
    let mut count = 0;
    // A form that the project prescribes: the loop adds stations, and yields the king set and its number by break.
    let (set, count) = loop {
        if cannot_fail(rule, caller, set) {
            break (set, count);
        }
        count += 1;
        set = with(set, king_number(caller, count));
    };
    Kings { caller, set, count }
}
