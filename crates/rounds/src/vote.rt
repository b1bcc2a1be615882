// A vote: in each trio every station casts the code that it holds, and each of the three takes what two of its readings share.
ghost use Rattle.std.specs.Prelude.{◌≡◌, ℕ, ◌+◌, ◌<◌, Bool, ◌||◌, length, replicate, if◌then◌else◌, ◌==◌, nat_eq, nat_le};
ghost use Rattle.rigs.specs.Lines.{void};
ghost use Rattle.words.specs.Kinds.{is_word};
ghost use Rattle.agreement.specs.Made.{rig_of};
ghost use Rattle.agreement.specs.Rounds.{vote_in};
ghost use Rattle.agreement.specs.Sheets.{vote_entry, vote_sheet};
ghost use Rattle.rounds.specs.Settings.{setting_from};
ghost use Rattle.rounds.specs.Votes.{readings_of, votes_of};
ghost use Rattle.rounds.specs.Sheets.{put_vote, put_trio, with_pair, with_lowest, Wrote, fitting};

use crate::reading::read_code;
use crate::sheet::{Votes, entry};
use crate::start::Start;
use crate::trio::Trio;
use refusals::Refusal;
use rigs::keys::TrioKey;
use rigs::{Rig, VOID};
use rules::Rule;
use words::WordKind;

// The code that at least two of three readings share, or void.
fn shared(x: u16, y: u16, z: u16) -> u16
    ensures { result ≡ (if nat_eq x y || x == z then x else (if nat_eq y z then y else void)) }
{
    if x == y || x == z {
        x
    } else if y == z {
        y
    } else {
        VOID
    }
}

// Writes what p has of its trio with q and r.
fn put(votes: &mut Votes, p: u8, q: u8, r: u8, v: u16)
    requires { (p < 16) × (q < 16) × (r < 16) }
    ensures { votes.new ≡ put_vote votes.old p q r v }
{
    votes[entry(p, q, r)] = v;
    votes[entry(p, r, q)] = v;
}

// What a vote runs on.
#[derive(Drop)]
pub(crate) struct Setting<'a, R, Q> {
    pub(crate) rig: &'a R,
    pub(crate) rule: &'a Q,
    pub(crate) start: &'a Start,
}

impl<'a, R: Rig, Q: Rule> Setting<'a, R, Q> {
    // How each of the three stations of a trio reads what the speaker says.
    fn readings<K: WordKind>(&self, trio: Trio, speaker: u8) -> (u16, u16, u16)
        ensures { result ≡ readings_of (setting_from (rig_of R.Wire R.Rig.own self.now.rig.now) (is_word K.WordKind.word) self.now.start.now) trio.a trio.b trio.c speaker }
    {
        let key = TrioKey {
            take: self.start.take,
            round: self.start.round,
            a: trio.a,
            b: trio.b,
            c: trio.c,
            speaker,
        };
        let heard = self
            .rig
            .trio(key, self.start.code(speaker), self.start.broken);
        (
            read_code::<K>(VOID, heard.0),
            read_code::<K>(VOID, heard.1),
            read_code::<K>(VOID, heard.2),
        )
    }

    // What each of the three has of their trio.
    fn trio_votes<K: WordKind>(&self, trio: Trio) -> (u16, u16, u16)
        ensures { result ≡ votes_of (setting_from (rig_of R.Wire R.Rig.own self.now.rig.now) (is_word K.WordKind.word) self.now.start.now) trio.a trio.b trio.c }
    {
        let x = self.readings::<K>(trio, trio.a);
        let y = self.readings::<K>(trio, trio.b);
        let z = self.readings::<K>(trio, trio.c);
        (
            shared(x.0, y.0, z.0),
            shared(x.1, y.1, z.1),
            shared(x.2, y.2, z.2),
        )
    }

    // Writes what each of the three has of their trio.
    #[tactic(auto, unfolding(crate::specs::Votes::votes_of))]
    fn put_trio<K: WordKind>(&self, trio: Trio, votes: &mut Votes)
        ensures { votes.new ≡ put_trio votes.old trio.a trio.b trio.c (vote_in (setting_from (rig_of R.Wire R.Rig.own self.now.rig.now) (is_word K.WordKind.word) self.now.start.now) trio.a trio.b trio.c) }
    {
        let Trio { a, b, c } = trio;
        let (x, y, z) = self.trio_votes::<K>(trio);
        put(votes, a, b, c, x);
        put(votes, b, a, c, y);
        put(votes, c, a, b, z);
    }

    // Writes the votes of all trios whose two lower stations are a and b.
    fn vote_with_pair<K: WordKind>(&self, a: u8, b: u8, votes: &mut Votes)
        requires { (a < b) × (b < Q.Rule.stations self.now.rule.now) }
        ensures { Wrote (with_pair (Q.Rule.stations self.now.rule.now) a b) (vote_entry (Q.Rule.stations self.now.rule.now) (setting_from (rig_of R.Wire R.Rig.own self.now.rig.now) (is_word K.WordKind.word) self.now.start.now)) votes.new votes.old }
    {
        for c in b + 1..self.rule.n() {
            self.put_trio::<K>(Trio { a, b, c }, votes);
        }
    }

    // Writes the votes of all trios whose lowest station is a.
    fn vote_with_lowest<K: WordKind>(&self, a: u8, votes: &mut Votes)
        requires { a < Q.Rule.stations self.now.rule.now }
        ensures { Wrote (with_lowest (Q.Rule.stations self.now.rule.now) a) (vote_entry (Q.Rule.stations self.now.rule.now) (setting_from (rig_of R.Wire R.Rig.own self.now.rig.now) (is_word K.WordKind.word) self.now.start.now)) votes.new votes.old }
    {
        for b in a + 1..self.rule.n() {
            self.vote_with_pair::<K>(a, b, votes);
        }
    }

    // Writes the votes of all trios, each speaker of each trio being asked for once, and void to the other entries.
    pub(crate) fn vote<K: WordKind>(&self, votes: &mut Votes)
        ensures { votes.new ≡ vote_sheet (Q.Rule.stations self.now.rule.now) (setting_from (rig_of R.Wire R.Rig.own self.now.rig.now) (is_word K.WordKind.word) self.now.start.now) votes.old }
    {
        blank(votes);
        for a in 0..self.rule.n() {
            self.vote_with_lowest::<K>(a, votes);
        }
    }
}

// Writes void to the entries of all votes.
fn blank(votes: &mut Votes)
    ensures { votes.new ≡ replicate 4096 void }
{
    votes.fill(VOID);
}

// A vote of all stations into the sheet: v(p,q,r) at entry 256p + 16q + r, and void in the rest of the first 4,096 entries. A sheet that is too short is refused and left as it was.
pub fn vote<R: Rig, Q: Rule, K: WordKind>(
    rig: &R,
    rule: &Q,
    start: &Start,
    sheet: &mut [u16],
) -> Result<(), Refusal>
    ensures refused { result ≡ fitting sheet.old tt }
    ensures after { sheet.new ≡ (if nat_le 4096 (length sheet.old) then vote_sheet (Q.Rule.stations rule.now) (setting_from (rig_of R.Wire R.Rig.own rig.now) (is_word K.WordKind.word) start.now) sheet.old else sheet.old) }
{
    let votes = sheet.first_chunk_mut().ok_or(Refusal::SheetTooShort)?;
    Setting { rig, rule, start }.vote::<K>(votes);
    Ok(())
}
