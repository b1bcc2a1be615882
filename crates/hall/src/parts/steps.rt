// What each call does, by the state that the hall is in.
ghost use Rattle.std.specs.Prelude.{◌≡◌, ℕ, ◌*◌, ◌≤◌, List, if◌then◌else◌, Ok, Err, nat_lt};
ghost use Rattle.refusals.specs.declared.Refusal.TheVariants.{NoSuchStation};
ghost use Rattle.hall.specs.Halls.{model, as_word, as_lit};
ghost use Rattle.hall.specs.Outcomes.{opening, striking, marking, clearing, reading, lighting, rounding, when_decided, unless_idle, outcome};

use crate::call::Call;
use crate::opening::first_codes;
use crate::parts::Hall;
use crate::state::State;
use agreement::stage::{Answer, RoundKind, Stage};
use refusals::Refusal;
use rigs::Rig;
use rounds::outcome::Outcome;
use rounds::round::run;
use rounds::start::Start;
use rules::Rule;
use rules::king::kings_of;
use sets::{contains, with, without};
use words::WordKind;

// The stage of a cue with so many kings after a round that began so: decided after the last.
fn stage_after(start: &Start, kings: u8) -> Stage
    requires { kings ≤ 15 }
    ensures { result ≡ (if nat_lt (3 * kings) start.now.round then Stage.Decided else Stage.Running start.now.take start.now.caller kings start.now.round) }
{
    if start.round > 3 * kings {
        Stage::Decided
    } else {
        Stage::Running {
            take: start.take,
            caller: start.caller,
            kings,
            rounds: start.round,
        }
    }
}

impl<R: Rig, Q: Rule, K: WordKind> Hall<R, Q, K> {
    // What the call does, by the state that the hall is in.
    pub(super) fn judge(&mut self, call: Call<K>, sheet: &mut [u16]) -> Result<Answer<K>, Refusal>
        ensures { (model self.new, result, sheet.new) ≡ outcome R.Wire R.Rig.own Q.Rule K.WordKind (model self.old) call sheet.old }
    {
        match (call, self.state.stage) {
            (Call::Open { take, caller, word }, Stage::Idle) => self.begin(take, caller, word),
            (Call::Open { .. }, _) => Err(Refusal::NotIdle),
            (Call::Round, _) => self.run_round(sheet),
            (Call::Strike, Stage::Idle) => Err(Refusal::Idle),
            (Call::Strike, _) => Ok(self.end()),
            (Call::Mark(station), _) => self.mark_broken(station),
            (Call::Clear(station), Stage::Idle) => self.mark_good(station),
            (Call::Clear(_), _) => Err(Refusal::NotIdle),
            (Call::Read(station), _) => Ok(Answer::Word(self.decided_word(station)?)),
            (Call::Lamp(station), _) => Ok(Answer::Lit(self.cue_lamp(station)?)),
        }
    }

    // The station of this number, if there is one.
    fn station(&self, number: u16) -> Result<u8, Refusal>
        ensures { result ≡ (if nat_lt number (Q.Rule.stations self.now.rule) then Ok number else Err NoSuchStation) }
    {
        match u8::try_from(number) {
            Ok(station) if station < self.rule.n() => Ok(station),
            _ => Err(Refusal::NoSuchStation),
        }
    }

    // The word that a station holds, once the cue is decided.
    pub(super) fn decided_word(&self, station: u16) -> Result<K, Refusal>
        ensures { (model self.now, as_word result) ≡ when_decided R.Wire R.Rig.own Q.Rule K.WordKind (model self.now) (model self.now).state.stage (reading R.Wire R.Rig.own Q.Rule K.WordKind (model self.now) station) }
    {
        match self.state.stage {
            Stage::Decided => self.word_of(station),
            _ => Err(Refusal::NotDecided),
        }
    }

    // 1 if the lamp of a station is lit, else 0, while a cue is on.
    pub(super) fn cue_lamp(&self, station: u16) -> Result<u16, Refusal>
        ensures { (model self.now, as_lit result) ≡ unless_idle R.Wire R.Rig.own Q.Rule K.WordKind (model self.now) (model self.now).state.stage (lighting R.Wire R.Rig.own Q.Rule K.WordKind (model self.now) station) }
    {
        match self.state.stage {
            Stage::Idle => Err(Refusal::Idle),
            _ => self.lamp_of(station),
        }
    }

    // Starts a cue on an idle hall.
    fn begin(&mut self, take: u16, caller: u16, word: K) -> Result<Answer<K>, Refusal>
        ensures { (model self.new, result) ≡ opening R.Wire R.Rig.own Q.Rule K.WordKind (model self.old) take caller word }
    {
        let kings = kings_of(&self.rule, caller)?;
        self.state = State {
            stage: Stage::Running {
                take,
                caller: kings.caller,
                kings: kings.count,
                rounds: 0,
            },
            held: first_codes(
                self.rule.n(),
                self.rest.encode(),
                kings.caller,
                word.encode(),
            ),
            lamps: 0,
            ..self.state
        };
        Ok(Answer::Done)
    }

    // Ends a cue.
    fn end(&mut self) -> Answer<K>
        ensures { (model self.new, Ok result) ≡ striking R.Wire R.Rig.own Q.Rule K.WordKind (model self.old) }
    {
        self.state = State::idle(self.state.broken);
        Answer::Done
    }

    // Makes a station broken, if the broken set can then fail.
    fn mark_broken(&mut self, station: u16) -> Result<Answer<K>, Refusal>
        ensures { (model self.new, result) ≡ marking R.Wire R.Rig.own Q.Rule K.WordKind (model self.old) station }
    {
        let wider = with(self.state.broken, self.station(station)?);
        if !self.rule.can_fail(wider) {
            return Err(Refusal::TooManyBroken);
        }
        self.state.broken = wider;
        Ok(Answer::Done)
    }

    // Makes a station good.
    fn mark_good(&mut self, station: u16) -> Result<Answer<K>, Refusal>
        ensures { (model self.new, result) ≡ clearing R.Wire R.Rig.own Q.Rule K.WordKind (model self.old) station }
    {
        self.state.broken = without(self.state.broken, self.station(station)?);
        Ok(Answer::Done)
    }

    // The word that a station holds.
    fn word_of(&self, station: u16) -> Result<K, Refusal>
        ensures { (model self.now, as_word result) ≡ reading R.Wire R.Rig.own Q.Rule K.WordKind (model self.now) station }
    {
        let p = usize::from(self.station(station)?);
        K::decode(self.state.held[p]).ok_or(Refusal::HoldsVoid)
    }

    // 1 if the lamp of a station is lit, else 0.
    fn lamp_of(&self, station: u16) -> Result<u16, Refusal>
        ensures { (model self.now, as_lit result) ≡ lighting R.Wire R.Rig.own Q.Rule K.WordKind (model self.now) station }
    {
        let p = self.station(station)?;
        Ok(u16::from(contains(self.state.lamps, p)))
    }

    // Runs the next round of the cue that is on.
    fn run_round(&mut self, sheet: &mut [u16]) -> Result<Answer<K>, Refusal>
        ensures { (model self.new, result, sheet.new) ≡ rounding R.Wire R.Rig.own Q.Rule K.WordKind (model self.old) (model self.old).state.stage sheet.old }
    {
        let Stage::Running {
            take,
            caller,
            kings,
            rounds,
        } = self.state.stage
        else {
            return Err(Refusal::NotRunning);
        };
        let start = Start {
            take,
            caller,
            round: rounds + 1,
            broken: self.state.broken,
            held: self.state.held,
            lamps: self.state.lamps,
        };
        let kind = RoundKind::from(start.round);
        let Outcome { held, lamps } = run(&self.rig, &self.rule, self.rest, kind, &start, sheet)?;
        self.state = State {
            stage: stage_after(&start, kings),
            held,
            lamps,
            ..self.state
        };
        Ok(Answer::Done)
    }
}
