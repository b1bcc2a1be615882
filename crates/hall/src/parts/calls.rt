// The making of a hall, and the calls on it.
ghost use Rattle.std.specs.Prelude.{◌≡◌, List, [], ◌∷◌};
ghost use Rattle.agreement.specs.Made.{meaning_of};
ghost use Rattle.agreement.specs.Calls.{reply, sheet_after};
ghost use Rattle.agreement.specs.Calls.{Open as asks_open, Round as asks_round, Strike as asks_strike, Mark as asks_mark, Clear as asks_clear, Read as asks_read, Lamp as asks_lamp};
ghost use Rattle.agreement.specs.Agreement.{Agrees};
ghost use Rattle.hall.specs.Halls.{model, meant, asked, as_word, as_lit};
ghost use Rattle.hall.specs.Histories.{Had, Does, Did, Answers, Continues, Agreed};
ghost use Rattle.hall.specs.Replays.{standing};

use crate::call::Call;
use crate::parts::Hall;
use crate::state::State;
use agreement::parts_agree;
use agreement::stage::Answer;
use refusals::Refusal;
use rigs::Rig;
use rules::Rule;
use words::WordKind;

impl<R: Rig, Q: Rule, K: WordKind> Hall<R, Q, K> {
    // A hall of this rig, rule and rest word, idle, with all stations good.
    #[tactic(auto, unfolding(agreement::specs::Calls::after, agreement::specs::Calls::blank))]
    pub fn new(rig: R, rule: Q, rest: K) -> Self
        ensures made { Had R.Wire R.Rig.own Q.Rule K.WordKind rig rule rest (model result) [] }
        ensures agreed { Agrees (meaning_of R.Wire R.Rig.own Q.Rule K.WordKind rig rule rest) [] }
    {
        parts_agree(&rig, &rule, &rest);
        Hall {
            rig,
            rule,
            rest,
            state: State::idle(0),
        }
    }

    // One call, which is done or refused. Only a round that is not refused may write to the sheet.
    pub fn call(&mut self, call: Call<K>, sheet: &mut [u16]) -> Result<Answer<K>, Refusal>
        ensures does { Does R.Wire R.Rig.own Q.Rule K.WordKind (model self.old) (asked call sheet.old) sheet.old (model self.new) result sheet.new }
        ensures answered { Answers R.Wire R.Rig.own Q.Rule K.WordKind (model self.old) (asked call sheet.old) result }
        ensures history { Continues R.Wire R.Rig.own Q.Rule K.WordKind (model self.old) (asked call sheet.old) (model self.new) }
    {
        parts_agree(&self.rig, &self.rule, &self.rest);
        self.judge(call, sheet)
    }

    // Starts a cue.
    pub fn open(&mut self, take: u16, caller: u16, word: K) -> Result<(), Refusal>
        ensures { Did R.Wire R.Rig.own Q.Rule K.WordKind (model self.old) (asks_open take caller word) result (model self.new) }
    {
        self.call(Call::Open { take, caller, word }, &mut [])?;
        Ok(())
    }

    // Runs one round.
    pub fn round(&mut self, sheet: &mut [u16]) -> Result<(), Refusal>
        ensures did { Did R.Wire R.Rig.own Q.Rule K.WordKind (model self.old) (asks_round sheet.old) result (model self.new) }
        ensures left { sheet.new ≡ sheet_after (meant R.Wire R.Rig.own Q.Rule K.WordKind (model self.old)) (model self.old).state (asks_round sheet.old) sheet.old }
    {
        self.call(Call::Round, sheet)?;
        Ok(())
    }

    // Ends a cue.
    pub fn strike(&mut self) -> Result<(), Refusal>
        ensures { Did R.Wire R.Rig.own Q.Rule K.WordKind (model self.old) asks_strike result (model self.new) }
    {
        self.call(Call::Strike, &mut [])?;
        Ok(())
    }

    // Makes a station broken.
    pub fn mark(&mut self, station: u16) -> Result<(), Refusal>
        ensures { Did R.Wire R.Rig.own Q.Rule K.WordKind (model self.old) (asks_mark station) result (model self.new) }
    {
        self.call(Call::Mark(station), &mut [])?;
        Ok(())
    }

    // Makes a station good.
    pub fn clear(&mut self, station: u16) -> Result<(), Refusal>
        ensures { Did R.Wire R.Rig.own Q.Rule K.WordKind (model self.old) (asks_clear station) result (model self.new) }
    {
        self.call(Call::Clear(station), &mut [])?;
        Ok(())
    }

    // The word that a station holds.
    pub fn read(&self, station: u16) -> Result<K, Refusal>
        ensures answer { as_word result ≡ reply (meant R.Wire R.Rig.own Q.Rule K.WordKind (model self.now)) (model self.now).state (asks_read station) }
        ensures answered { Answers R.Wire R.Rig.own Q.Rule K.WordKind (model self.now) (asks_read station) (as_word result) }
        ensures history { Continues R.Wire R.Rig.own Q.Rule K.WordKind (model self.now) (asks_read station) (model self.now) }
    {
        parts_agree(&self.rig, &self.rule, &self.rest);
        self.decided_word(station)
    }

    // 1 if the lamp of a station is lit, else 0: by rule the answer is the number that a reply carries.
    pub fn lamp(&self, station: u16) -> Result<u16, Refusal>
        ensures answer { as_lit result ≡ reply (meant R.Wire R.Rig.own Q.Rule K.WordKind (model self.now)) (model self.now).state (asks_lamp station) }
        ensures answered { Answers R.Wire R.Rig.own Q.Rule K.WordKind (model self.now) (asks_lamp station) (as_lit result) }
        ensures history { Continues R.Wire R.Rig.own Q.Rule K.WordKind (model self.now) (asks_lamp station) (model self.now) }
    {
        parts_agree(&self.rig, &self.rule, &self.rest);
        self.cue_lamp(station)
    }

    // Where the hall stands. This is no call of a history: a station knows its own word and lamp alone, and learns them by read and lamp.
    pub fn state(&self) -> State
        ensures { result ≡ standing (model self.now).state }
    {
        self.state
    }

    // The stations agree after whatever calls led to this hall. It changes and answers nothing.
    pub fn agrees(&self)
        ensures { Agreed R.Wire R.Rig.own Q.Rule K.WordKind (model self.now) }
    {
        parts_agree(&self.rig, &self.rule, &self.rest);
    }
}
