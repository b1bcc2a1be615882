// What a station has of the votes.
ghost use Rattle.std.specs.Prelude.{◌≡◌, ℕ};
ghost use Rattle.agreement.specs.Rounds.{unanimous};
ghost use Rattle.rounds.specs.Sheets.{votes_on};
ghost use Rattle.rounds.specs.Tallies.{agrees};

use crate::sheet::{Votes, vote_at};
use crate::stations::count;
use rules::Rule;

// The votes of the stations of a rule, as station p has them.
#[derive(Drop)]
pub(crate) struct View<'a, Q> {
    pub(crate) rule: &'a Q,
    pub(crate) votes: &'a Votes,
    pub(crate) p: u8,
}

impl<'a, Q: Rule> View<'a, Q> {
    // v(p,q,r).
    pub(crate) fn vote(&self, q: u8, r: u8) -> u16
        ensures { result ≡ votes_on self.now.votes.now self.now.p q r }
    {
        vote_at(self.votes, self.p, q, r)
    }

    // Whether v(p,q,r) is w, where r is another station than p and q.
    fn agrees(&self, w: u16, q: u8, r: u8) -> bool
        ensures { result ≡ agrees (votes_on self.now.votes.now) self.now.p w q r }
    {
        // By `|`, as one test: `||` would have the processor guess at each station.
        (r == self.p) | (r == q) | (self.vote(q, r) == w)
    }

    // Whether v(p,q,r) is w for every other r.
    pub(crate) fn is_unanimous(&self, w: u16, q: u8) -> bool
        ensures { result ≡ unanimous (Q.Rule.stations self.now.rule.now) (votes_on self.now.votes.now) self.now.p w q }
    {
        (0..count(self.rule)).all(|r| self.agrees(w, q, r))
    }
}
