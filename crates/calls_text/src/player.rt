// Plays a script of calls, line by line.
ghost use Rattle.std.specs.Prelude.{◌≡◌, MatchResult};
ghost use Rattle.refusals.specs.declared.Refusal.TheVariants.{NoWord as is_no_word};
ghost use Rattle.calls_text.specs.Coded.{Worded, Wordless};

use crate::digest::digest;
use crate::line::{Command, whole};
use crate::said::Said;
use agreement::stage::Answer;
use hall::call::Call;
use hall::parts::Hall;
use refusals::Refusal;
use rigs::Rig;
use rules::Rule;
use scan::scanner::Scanner;
use settings::line::Stop;
use settings::making::{Kind, Parts, Settings, SomeRig, SomeRule, word_of};
use std::alloc::{AllocError, Global};
use words::WordKind;
use words::gate::Gate;
use words::scene::Scene;

// What each entry of a sheet holds before its round.
const BEFORE: u16 = 9;

// A hall of one word kind or the other.
#[derive(Drop)]
pub enum AnyHall {
    OfGates(Hall<SomeRig, SomeRule, Gate>),
    OfScenes(Hall<SomeRig, SomeRule, Scene>),
}

// The settings of the halls made from here on, and the hall that was made last, if any was.
#[derive(Drop)]
pub struct Player {
    settings: Settings,
    hall: Option<AnyHall>,
}

// The call with a word in place of a code, refused where the code is no word's. A function: TryFrom for a type of another crate is that crate's to write.
pub fn worded<K: WordKind>(call: Call<u16>) -> Result<Call<K>, Refusal>
    ensures { MatchResult result (Worded K.WordKind.word call) (λ e. (e ≡ is_no_word) × Wordless K.WordKind.word call) }
{
    Ok(match call {
        Call::Open { take, caller, word } => Call::Open {
            take,
            caller,
            word: word_of(word)?,
        },
        Call::Round => Call::Round,
        Call::Strike => Call::Strike,
        Call::Mark(station) => Call::Mark(station),
        Call::Clear(station) => Call::Clear(station),
        Call::Read(station) => Call::Read(station),
        Call::Lamp(station) => Call::Lamp(station),
    })
}

// The answer with the code of its word. A function: From for a type of another crate is that crate's to write.
fn coded<K: WordKind>(answer: Answer<K>) -> Answer<u16> {
    match answer {
        Answer::Done => Answer::Done,
        Answer::Word(word) => Answer::Word(word.encode()),
        Answer::Lit(lit) => Answer::Lit(lit),
    }
}

// A call on a hall, in codes.
fn ask<R: Rig, Q: Rule, K: WordKind>(
    hall: &mut Hall<R, Q, K>,
    call: Call<u16>,
    sheet: &mut [u16],
) -> Result<Answer<u16>, Refusal> {
    hall.call(worded(call)?, sheet).map(coded)
}

// The refusal of a call where no hall was made yet, for words of this kind.
fn unmade<K: WordKind>(call: Call<u16>) -> Refusal {
    worded::<K>(call).err().unwrap_or(Refusal::NotMade)
}
