// Packets to calls: a packet names a call on a hall, and the answer goes back as a message.
#![tactic(auto)]

ghost use Rattle.std.specs.Prelude.{◌≡◌, List, length, MatchResult};
ghost use Rattle.agreement.specs.Calls.{next, reply as replied, sheet_after};
ghost use Rattle.hall.specs.Halls.{model, meant, put, asked};
ghost use Rattle.hall.specs.Histories.{Continues};
ghost use Rattle.play.specs.Plays.{told_of, reply_to, Answered, Plays, Unplayed};

pub mod arguments;
pub mod asks;
pub mod name;
pub mod number;
pub mod reply;

use agreement::stage::Answer;
use asks::asks;
use hall::call::Call;
use hall::parts::Hall;
use refusals::Refusal;
use reply::{Reply, Told, has_room, put_reply};
use rigs::Rig;
use rules::Rule;
use words::WordKind;

// What is told of a call that was answered so: only a read answers a word, and only a question for a lamp 1 or 0.
fn told<K: WordKind>(call: Call<K>, answer: Answer<K>) -> Told
    ensures { result ≡ told_of K.WordKind.code call answer }
{
    match (call, answer) {
        (Call::Read(station), Answer::Word(word)) => Told::Word {
            station,
            code: word.encode(),
        },
        (Call::Lamp(station), Answer::Lit(lit)) => Told::Lamp { station, lit },
        _ => Told::Done,
    }
}

// Makes a call on the hall: what is replied.
#[tactic(auto, using(crate::proofs::Telling::replies))]
pub fn perform<R: Rig, Q: Rule, K: WordKind>(
    hall: &mut Hall<R, Q, K>,
    call: Call<K>,
    sheet: &mut [u16],
) -> Reply
    ensures value { result ≡ reply_to K.WordKind.code call (replied (meant R.Wire R.Rig.own Q.Rule K.WordKind (model hall.old)) (model hall.old).state (asked call sheet.old)) }
    ensures hall { model hall.new ≡ put (model hall.old) (next (meant R.Wire R.Rig.own Q.Rule K.WordKind (model hall.old)) (model hall.old).state (asked call sheet.old)) }
    ensures sheet { sheet.new ≡ sheet_after (meant R.Wire R.Rig.own Q.Rule K.WordKind (model hall.old)) (model hall.old).state (asked call sheet.old) sheet.old }
    ensures history { Continues R.Wire R.Rig.own Q.Rule K.WordKind (model hall.old) (asked call sheet.old) (model hall.new) }
{
    let answer = hall.call(call, sheet)?;
    Ok(told(call, answer))
}

// Makes the call that the packet names, if it names one: what is replied.
fn answer<R: Rig, Q: Rule, K: WordKind>(
    hall: &mut Hall<R, Q, K>,
    packet: &[u8],
    sheet: &mut [u16],
) -> Reply
    ensures { Answered R.Wire R.Rig.own Q.Rule K.WordKind packet.now (model hall.old) sheet.old (model hall.new) sheet.new result }
{
    hall.agrees();
    perform(hall, asks(packet)?, sheet)
}

// Makes the call that the packet names and writes the reply with its size to the front of the buffer: how long both are. A buffer under 28 bytes is refused, and then nothing is changed at all.
pub fn play<R: Rig, Q: Rule, K: WordKind>(
    hall: &mut Hall<R, Q, K>,
    packet: &[u8],
    sheet: &mut [u16],
    out: &mut [u8],
) -> Result<usize, Refusal>
    ensures { MatchResult result (Plays R.Wire R.Rig.own Q.Rule K.WordKind packet.now (model hall.old) sheet.old out.old (model hall.new) sheet.new out.new) (Unplayed (model hall.old) sheet.old out.old (model hall.new) sheet.new out.new) }
{
    if !has_room(out.len()) {
        return Err(Refusal::BufferTooShort);
    }
    let reply = answer(hall, packet, sheet);
    Ok(put_reply(reply, out))
}
