// Rounds in which one station wires its code to the others: the caller's round and the king rounds.
ghost use Rattle.std.specs.Prelude.{◌≡◌, ℕ, ◌||◌, if◌then◌else◌, ◌==◌, slice_index};
ghost use Rattle.sets.specs.Sets.{has};
ghost use Rattle.rigs.specs.Lines.{Casts};
ghost use Rattle.words.specs.Kinds.{is_word};
ghost use Rattle.agreement.specs.Rounds.{wired_to, caller_held, king_held};
ghost use Rattle.agreement.specs.Sheets.{sixteen};
ghost use Rattle.rounds.specs.Settings.{lines, setting_from};

use crate::reading::read_code;
use crate::start::Start;
use crate::stations::by_station;
use rigs::keys::WireKey;
use rigs::{VOID, Wire};
use rules::Rule;
use sets::contains;
use words::WordKind;

// The set of no lamp.
const NO_LAMP: u16 = 0;

// The station `from` as it wires its code to the others: what is read where no word arrives, and the lamps that are lit.
#[derive(Drop)]
struct Sender<'a, R> {
    rig: &'a R,
    start: &'a Start,
    rest: u16,
    lamps: u16,
    from: u8,
}

impl<'a, R: Wire> Sender<'a, R> {
    // Whether p keeps what it holds: the sender does, and a station whose lamp is lit.
    fn keeps(&self, p: u8) -> bool
        ensures { result ≡ (p == self.now.from || has self.now.lamps p) }
    {
        p == self.from || contains(self.lamps, p)
    }

    // The code that arrives at p.
    fn arrives(&self, p: u8) -> u16
        ensures { result ≡ R.Wire.carried self.now.rig.now (record { take = self.now.start.now.take; round = self.now.start.now.round; from = self.now.from; «to» = p }) (slice_index self.now.start.now.held self.now.from) self.now.start.now.broken }
    {
        let key = WireKey {
            take: self.start.take,
            round: self.start.round,
            from: self.from,
            to: p,
        };
        let sent = self.start.code(self.from);
        self.rig.wire(key, sent, self.start.broken)
    }

    // What p reads of it.
    #[tactic(auto, unfolding(agreement::specs::Rounds::wired_to, agreement::specs::Rounds::wire_reading))]
    fn wired_to<K: WordKind>(&self, p: u8) -> u16
        ensures { (trio : Casts) → result ≡ wired_to (setting_from (lines (R.Wire.carried self.now.rig.now) trio) (is_word K.WordKind.word) self.now.start.now) self.now.rest self.now.from p }
    {
        read_code::<K>(self.rest, self.arrives(p))
    }

    // What p holds after it.
    fn code<K: WordKind>(&self, p: u8) -> u16
        ensures { (trio : Casts) → result ≡ king_held (setting_from (lines (R.Wire.carried self.now.rig.now) trio) (is_word K.WordKind.word) self.now.start.now) self.now.rest (has self.now.lamps) self.now.from p }
    {
        if self.keeps(p) {
            self.start.code(p)
        } else {
            self.wired_to::<K>(p)
        }
    }

    // What all stations of the rule hold after it.
    fn codes<Q: Rule, K: WordKind>(&self, rule: &Q) -> [u16; 16]
        ensures { (trio : Casts) → result ≡ sixteen (Q.Rule.stations rule.now) (king_held (setting_from (lines (R.Wire.carried self.now.rig.now) trio) (is_word K.WordKind.word) self.now.start.now) self.now.rest (has self.now.lamps) self.now.from) }
    {
        by_station(rule, VOID, |p| self.code::<K>(p))
    }
}

// Round 1: what the stations hold after the caller has wired its code to the others. It asks no trio line, whichever there be.
pub fn caller_round<R: Wire, Q: Rule, K: WordKind>(
    rig: &R,
    rule: &Q,
    rest: K,
    start: &Start,
) -> [u16; 16]
    ensures { (trio : Casts) → result ≡ sixteen (Q.Rule.stations rule.now) (caller_held (setting_from (lines (R.Wire.carried rig.now) trio) (is_word K.WordKind.word) start.now) (K.WordKind.code rest) start.now.caller) }
{
    let sender = Sender {
        rig,
        start,
        rest: rest.encode(),
        lamps: NO_LAMP,
        from: start.caller,
    };
    sender.codes::<Q, K>(rule)
}

// A king round: the same with the king as the sender, where stations whose lamps are lit keep their word.
pub fn king_round<R: Wire, Q: Rule, K: WordKind>(
    rig: &R,
    rule: &Q,
    rest: K,
    start: &Start,
    king: u8,
) -> [u16; 16]
    ensures { (trio : Casts) → result ≡ sixteen (Q.Rule.stations rule.now) (king_held (setting_from (lines (R.Wire.carried rig.now) trio) (is_word K.WordKind.word) start.now) (K.WordKind.code rest) (has start.now.lamps) king) }
{
    let sender = Sender {
        rig,
        start,
        rest: rest.encode(),
        lamps: start.lamps,
        from: king,
    };
    sender.codes::<Q, K>(rule)
}
