// The weak round: each station takes the smallest word under which all stations but itself and those that are unanimous on the word can fail.
//
// Only words among the station's votes are tried.
ghost use Rattle.std.specs.Prelude.{◌≡◌, ℕ, not, ◌&&◌, ◌==◌, unwrap_or};
ghost use Rattle.sets.specs.Sets.{mask_of, smallest};
ghost use Rattle.words.specs.Kinds.{is_word};
ghost use Rattle.agreement.specs.Made.{rule_of};
ghost use Rattle.agreement.specs.Rounds.{unanimous, weak_held};
ghost use Rattle.agreement.specs.Sheets.{sixteen};
ghost use Rattle.rounds.specs.Sheets.{votes_on, fitting};
ghost use Rattle.rounds.specs.Tallies.{third_of, row_code, is_code, left_out, weak_tried};

use crate::search::lowest;
use crate::sheet::Votes;
use crate::stations::{by_station, set_of};
use crate::view::View;
use refusals::Refusal;
use rigs::VOID;
use rules::Rule;
use words::{WordKind, is_word};

// A station other than p and q.
fn third(p: u8, q: u8) -> u8
    ensures { result ≡ third_of p q }
{
    if p != 0 && q != 0 {
        0
    } else if p != 1 && q != 1 {
        1
    } else {
        2
    }
}

impl<'a, Q: Rule> View<'a, Q> {
    // Whether q is in X(w): another station than p, whose v(p,q,r) is w for every other r.
    fn is_in_x(&self, w: u16, q: u8) -> bool
        ensures { result ≡ (not (q == self.now.p) && unanimous (Q.Rule.stations self.now.rule.now) (votes_on self.now.votes.now) self.now.p w q) }
    {
        q != self.p && self.is_unanimous(w, q)
    }

    // The code w with q in X(w), if there is one.
    #[tactic(auto, unfolding(crate::specs::Tallies::row_code))]
    fn row_code(&self, q: u8) -> Option<u16>
        ensures { result ≡ row_code (Q.Rule.stations self.now.rule.now) (votes_on self.now.votes.now) self.now.p q }
    {
        let w = self.vote(q, third(self.p, q));
        self.is_in_x(w, q).then_some(w)
    }

    // Whether q is another station than p, and its code another than w.
    fn is_left_out(&self, w: u16, q: u8, code: Option<u16>) -> bool
        ensures { result ≡ (not (q == self.now.p) && not (is_code code w)) }
    {
        q != self.p && code != Some(w)
    }

    // All stations but p and those whose code is w.
    fn left_out(&self, row: &[Option<u16>; 16], w: u16) -> u16
        ensures { result ≡ mask_of (Q.Rule.stations self.now.rule.now) (left_out row.now self.now.p w) }
    {
        set_of(self.rule, |q| self.is_left_out(w, q, row[usize::from(q)]))
    }

    // The smallest word under which all but p and those that are unanimous on the word can fail, if there is one.
    fn weak_word<K: WordKind>(&self) -> Option<u16>
        ensures { (d : ℕ) → unwrap_or result d ≡ smallest 4096 (weak_tried (rule_of Q.Rule self.now.rule.now) (votes_on self.now.votes.now) self.now.p (is_word K.WordKind.word)) d }
    {
        let row = by_station(self.rule, None, |q| self.row_code(q));
        lowest(
            self.rule,
            None,
            |q| row[usize::from(q)],
            |w| is_word::<K>(w) && self.rule.can_fail(self.left_out(&row, w)),
        )
    }

    // What p holds after the round: that word, or void.
    #[tactic(auto, unfolding(agreement::specs::Rounds::weak_held))]
    fn weak_code<K: WordKind>(&self) -> u16
        ensures { result ≡ weak_held (rule_of Q.Rule self.now.rule.now) (is_word K.WordKind.word) (votes_on self.now.votes.now) self.now.p }
    {
        self.weak_word::<K>().unwrap_or(VOID)
    }
}

// What all stations hold after it.
pub(crate) fn weak_codes<Q: Rule, K: WordKind>(rule: &Q, votes: &Votes) -> [u16; 16]
    ensures { result ≡ sixteen (Q.Rule.stations rule.now) (weak_held (rule_of Q.Rule rule.now) (is_word K.WordKind.word) (votes_on votes.now)) }
{
    by_station(rule, VOID, |p| View { rule, votes, p }.weak_code::<K>())
}

// What all stations hold after a weak round with the votes on the sheet, or a refusal where the sheet is too short.
pub fn weak<Q: Rule, K: WordKind>(rule: &Q, sheet: &[u16]) -> Result<[u16; 16], Refusal>
    ensures { result ≡ fitting sheet.now (sixteen (Q.Rule.stations rule.now) (weak_held (rule_of Q.Rule rule.now) (is_word K.WordKind.word) (votes_on sheet.now))) }
{
    let votes = sheet.first_chunk().ok_or(Refusal::SheetTooShort)?;
    Ok(weak_codes::<Q, K>(rule, votes))
}
