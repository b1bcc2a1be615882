// The graded round: each station takes the smallest word w with a station in Y(w), or the rest word, and lights its lamp where it and those that are unanimous on its word cannot fail.
//
// Only words among the station's votes are tried.
ghost use Rattle.std.specs.Prelude.{◌≡◌, ℕ, Bool, not, ◌&&◌, unwrap_or};
ghost use Rattle.sets.specs.Sets.{mask_of};
ghost use Rattle.words.specs.Kinds.{is_word};
ghost use Rattle.agreement.specs.Made.{rule_of};
ghost use Rattle.agreement.specs.Rounds.{in_y, graded_held, graded_lit};
ghost use Rattle.rounds.specs.Sheets.{votes_on, fitting};
ghost use Rattle.rounds.specs.Tallies.{backs, sure, graded_by};

use crate::outcome::Outcome;
use crate::search::lowest;
use crate::sheet::Votes;
use crate::stations::{by_station, count, set_of};
use crate::view::View;
use refusals::Refusal;
use rigs::VOID;
use rules::Rule;
use words::{WordKind, is_word};

impl<'a, Q: Rule> View<'a, Q> {
    // Whether r is q, or another station than p with v(p,q,r) equal to w.
    fn backs(&self, w: u16, q: u8, r: u8) -> bool
        ensures { result ≡ backs (votes_on self.now.votes.now) self.now.p w q r }
    {
        // By `|` and `&`, as one test, like `agrees`.
        (r == q) | ((r != self.p) & (self.vote(q, r) == w))
    }

    // q together with all r whose v(p,q,r) is w.
    fn backing(&self, w: u16, q: u8) -> u16
        ensures { result ≡ mask_of (Q.Rule.stations self.now.rule.now) (backs (votes_on self.now.votes.now) self.now.p w q) }
    {
        set_of(self.rule, |r| self.backs(w, q, r))
    }

    // Whether w is a word and q is in Y(w).
    #[tactic(auto, unfolding(agreement::specs::Rounds::in_y, agreement::specs::Rounds::fails))]
    fn is_backed<K: WordKind>(&self, w: u16, q: u8) -> bool
        ensures { result ≡ (is_word K.WordKind.word w && in_y (rule_of Q.Rule self.now.rule.now) (votes_on self.now.votes.now) self.now.p w q) }
    {
        is_word::<K>(w) && q != self.p && !self.rule.can_fail(self.backing(w, q))
    }

    // The smallest word w with a station in Y(w), if there is one.
    fn graded_word<K: WordKind>(&self) -> Option<u16>
        ensures { (d : ℕ) → unwrap_or result d ≡ graded_held (rule_of Q.Rule self.now.rule.now) (is_word K.WordKind.word) d (votes_on self.now.votes.now) self.now.p }
    {
        let mut best = None;
        for q in 0..count(self.rule) {
            best = lowest(
                self.rule,
                best,
                |r| Some(self.vote(q, r)),
                |w| self.is_backed::<K>(w, q),
            );
        }
        best
    }

    // What p holds after the round: that word, or the rest word.
    fn graded_code<K: WordKind>(&self, rest: u16) -> u16
        ensures { result ≡ graded_held (rule_of Q.Rule self.now.rule.now) (is_word K.WordKind.word) rest (votes_on self.now.votes.now) self.now.p }
    {
        self.graded_word::<K>().unwrap_or(rest)
    }

    // Whether q is p, or v(p,q,r) is w for every other r.
    fn is_sure(&self, w: u16, q: u8) -> bool
        ensures { result ≡ sure (Q.Rule.stations self.now.rule.now) (votes_on self.now.votes.now) self.now.p w q }
    {
        q == self.p || self.is_unanimous(w, q)
    }

    // p together with the q whose v(p,q,r) is w for every other r.
    fn sure(&self, w: u16) -> u16
        ensures { result ≡ mask_of (Q.Rule.stations self.now.rule.now) (sure (Q.Rule.stations self.now.rule.now) (votes_on self.now.votes.now) self.now.p w) }
    {
        set_of(self.rule, |q| self.is_sure(w, q))
    }

    // Whether the lamp of p, which holds w, is lit.
    #[tactic(auto, unfolding(agreement::specs::Rounds::graded_lit, agreement::specs::Rounds::fails))]
    fn is_lit(&self, w: u16) -> bool
        ensures { result ≡ graded_lit (rule_of Q.Rule self.now.rule.now) (votes_on self.now.votes.now) self.now.p w }
    {
        !self.rule.can_fail(self.sure(w))
    }
}

// What all stations hold after it, and which lamps are lit.
pub(crate) fn grade<Q: Rule, K: WordKind>(rule: &Q, rest: u16, votes: &Votes) -> Outcome
    ensures { result ≡ graded_by (rule_of Q.Rule rule.now) (is_word K.WordKind.word) rest (votes_on votes.now) }
{
    let held = by_station(
        rule,
        VOID,
        |p| View { rule, votes, p }.graded_code::<K>(rest),
    );
    let lamps = set_of(
        rule,
        |p| View { rule, votes, p }.is_lit(held[usize::from(p)]),
    );
    Outcome { held, lamps }
}

// What all stations hold after a graded round with the votes on the sheet, and which lamps are lit, or a refusal where the sheet is too short.
pub fn graded<Q: Rule, K: WordKind>(rule: &Q, rest: K, sheet: &[u16]) -> Result<Outcome, Refusal>
    ensures { result ≡ fitting sheet.now (graded_by (rule_of Q.Rule rule.now) (is_word K.WordKind.word) (K.WordKind.code rest) (votes_on sheet.now)) }
{
    let votes = sheet.first_chunk().ok_or(Refusal::SheetTooShort)?;
    Ok(grade::<Q, K>(rule, rest.encode(), votes))
}
