// One round of a cue, of whichever kind it is.
ghost use Rattle.std.specs.Prelude.{◌≡◌, ◌-◌, length, if◌then◌else◌, nat_le};
ghost use Rattle.rules.specs.Kings.{king};
ghost use Rattle.words.specs.Kinds.{is_word};
ghost use Rattle.agreement.specs.Made.{rule_of, rig_of};
ghost use Rattle.agreement.specs.Sheets.{round_sheet};
ghost use Rattle.rounds.specs.Settings.{setting_from};
ghost use Rattle.rounds.specs.Sheets.{fitting};
ghost use Rattle.rounds.specs.Outcomes.{outcome_of};

use crate::graded::grade;
use crate::outcome::Outcome;
use crate::sheet::Votes;
use crate::start::Start;
use crate::vote::Setting;
use crate::weak::weak_codes;
use crate::wires::{caller_round, king_round};
use agreement::stage::RoundKind;
use refusals::Refusal;
use rigs::Rig;
use rules::Rule;
use words::WordKind;

// King number j of a caller, counted from 1: the other stations in rising order.
// Said again in rules, inside its calls: one function for both would be a public call of rules more, for a line of code.
fn king_of(caller: u8, j: u8) -> u8
    ensures { result ≡ king caller j }
{
    if j <= caller { j.saturating_sub(1) } else { j }
}

// What a round of this kind leaves, with the votes of a weak or graded round.
fn run_kind<R: Rig, Q: Rule, K: WordKind>(
    rig: &R,
    rule: &Q,
    rest: K,
    kind: RoundKind,
    start: &Start,
    votes: &mut Votes,
) -> Outcome
    ensures value { result ≡ outcome_of kind (rule_of Q.Rule rule.now) (setting_from (rig_of R.Wire R.Rig.own rig.now) (is_word K.WordKind.word) start.now) (K.WordKind.code rest) start.now.caller start.now.lamps }
    ensures after { votes.new ≡ round_sheet kind (Q.Rule.stations rule.now) (setting_from (rig_of R.Wire R.Rig.own rig.now) (is_word K.WordKind.word) start.now) votes.old }
{
    let lamps = start.lamps;
    match kind {
        RoundKind::Caller => {
            let held = caller_round(rig, rule, rest, start);
            Outcome { held, lamps }
        }
        RoundKind::Weak => {
            Setting { rig, rule, start }.vote::<K>(votes);
            let held = weak_codes::<Q, K>(rule, votes);
            Outcome { held, lamps }
        }
        RoundKind::Graded => {
            Setting { rig, rule, start }.vote::<K>(votes);
            grade::<Q, K>(rule, rest.encode(), votes)
        }
        RoundKind::King { number } => {
            let held = king_round(rig, rule, rest, start, king_of(start.caller, number));
            Outcome { held, lamps }
        }
    }
}

// A round of this kind: what it leaves of codes and lamps, with the votes of a weak or graded round on the sheet. A sheet that is too short is refused, whatever the kind, and left as it was.
pub fn run<R: Rig, Q: Rule, K: WordKind>(
    rig: &R,
    rule: &Q,
    rest: K,
    kind: RoundKind,
    start: &Start,
    sheet: &mut [u16],
) -> Result<Outcome, Refusal>
    ensures value { result ≡ fitting sheet.old (outcome_of kind (rule_of Q.Rule rule.now) (setting_from (rig_of R.Wire R.Rig.own rig.now) (is_word K.WordKind.word) start.now) (K.WordKind.code rest) start.now.caller start.now.lamps) }
    ensures after { sheet.new ≡ (if nat_le 4096 (length sheet.old) then round_sheet kind (Q.Rule.stations rule.now) (setting_from (rig_of R.Wire R.Rig.own rig.now) (is_word K.WordKind.word) start.now) sheet.old else sheet.old) }
{
    let votes = sheet.first_chunk_mut().ok_or(Refusal::SheetTooShort)?;
    Ok(run_kind(rig, rule, rest, kind, start, votes))
}
