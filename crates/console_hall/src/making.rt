// What a message that makes a hall asks for.
ghost use Rattle.std.specs.Prelude.{◌≡◌, ℕ, ◌%◌, Bool, List, ◌∷◌, length, Some, None, Ok, Err, MatchOption, MatchResult};
ghost use Rattle.packets.specs.Osc.{Value, blob};
ghost use Rattle.packets.specs.Read.{Left};
ghost use Rattle.console_hall.specs.Making.{head_blob, four_arguments, in_message, is_odd, wanted, making_from, making_of};

use packets::{Argument, Message};
use play::arguments::{next_number, no_argument};
use play::number::{station, word};
use refusals::Refusal;
use words::gate::Gate;

// The arguments as they stand in the message: n, t, the rest word's code, and the bytes of the script.
#[derive(Clone, Copy)]
pub struct Arguments<'a> {
    pub n: i32,
    pub t: i32,
    pub rest: i32,
    pub script: &'a [u8],
}

// A making: n, t, the rest word, and the bytes of the script, two to an entry. It is a type apart from the arguments: what a call takes has been checked, and one type over both would not show which it is.
#[derive(Clone, Copy)]
pub struct Making<'a> {
    pub n: u16,
    pub t: u16,
    pub rest: Gate,
    pub script: &'a [u8],
}

// The next argument, if it is a blob. One function over this and the next number would take a closure for the one case that each names.
fn next_blob<'a>(left: &mut Message<'a>) -> Option<&'a [u8]>
    ensures { (vs : List Value) → Left left.old vs → MatchOption result (head_blob vs ≡ None) (λ b. (ws : List Value) × ((vs ≡ blob b.now ∷ ws) × Left left.new ws)) }
{
    match left.next() {
        Some(Argument::Blob(bytes)) => Some(bytes),
        _ => None,
    }
}

// The four arguments of a making: three numbers and a blob, or none where there are others.
fn four_arguments<'a>(message: Message<'a>) -> Option<Arguments<'a>>
    ensures { (vs : List Value) → Left message.entry vs → MatchOption result (four_arguments vs ≡ None) (λ a. four_arguments vs ≡ Some (in_message a)) }
{
    let mut left = message;
    let n = next_number(&mut left)?;
    let t = next_number(&mut left)?;
    let rest = next_number(&mut left)?;
    let script = next_blob(&mut left)?;
    no_argument(left).then_some(Arguments { n, t, rest, script })
}

// Whether a byte of the script is left over.
fn is_odd(bytes: usize) -> bool
    ensures { result ≡ is_odd bytes }
{
    bytes % 2 == 1
}

// A making with these arguments, or the refusal.
impl<'a> TryFrom<Arguments<'a>> for Making<'a> {
    type Error = Refusal;

    ghost try_from_gives = { λ arguments r. MatchResult r (λ m. making_from (Some (in_message arguments)) ≡ Ok (wanted m)) (λ e. making_from (Some (in_message arguments)) ≡ Err e) };

    fn try_from(arguments: Arguments<'a>) -> Result<Making<'a>, Refusal> {
        if is_odd(arguments.script.len()) {
            return Err(Refusal::OddScript);
        }
        Ok(Making {
            n: station(arguments.n),
            t: station(arguments.t),
            rest: word(arguments.rest).ok_or(Refusal::NoWord)?,
            script: arguments.script,
        })
    }
}

// The making that a message asks for, or the refusal.
pub fn read_making<'a>(message: Message<'a>) -> Result<Making<'a>, Refusal>
    ensures { (vs : List Value) → Left message.entry vs → MatchResult result (λ m. making_of vs ≡ Ok (wanted m)) (λ e. making_of vs ≡ Err e) }
{
    four_arguments(message)
        .ok_or(Refusal::WrongTags)?
        .try_into()
}
