// What a packet asks of a hall.
ghost use Rattle.std.specs.Prelude.{◌≡◌, List};
ghost use Rattle.packets.specs.Osc.{Value};
ghost use Rattle.packets.specs.Read.{Left};
ghost use Rattle.play.specs.Asks.{bare_of, one_station, open_of, call_of, Asks};

use crate::arguments::{no_argument, one_number, three_numbers};
use crate::name::Name;
use crate::number::{short, station, word};
use hall::call::Call;
use packets::{Message, read_message};
use refusals::Refusal;
use words::WordKind;

// A call without arguments.
fn bare<K: WordKind>(message: Message<'_>, call: Call<K>) -> Result<Call<K>, Refusal>
    ensures { (vs : List Value) → Left message.entry vs → result ≡ bare_of vs call }
{
    no_argument(message)
        .then_some(call)
        .ok_or(Refusal::WrongTags)
}

// The station that is the one argument.
fn one_station(message: Message<'_>) -> Result<u16, Refusal>
    ensures { (vs : List Value) → Left message.entry vs → result ≡ one_station vs }
{
    one_number(message).map(station).ok_or(Refusal::WrongTags)
}

// An opening with these numbers: take, caller and word.
fn open_of<K: WordKind>(numbers: Option<(i32, i32, i32)>) -> Result<Call<K>, Refusal>
    ensures { result ≡ open_of K.WordKind.word numbers }
{
    let (take, caller, number) = numbers.ok_or(Refusal::WrongTags)?;
    Ok(Call::Open {
        take: short(take).ok_or(Refusal::TakeOutOfRange)?,
        caller: station(caller),
        word: word(number).ok_or(Refusal::NoWord)?,
    })
}

// The call of this name with the arguments of the message.
pub fn call_of<K: WordKind>(name: Name, message: Message<'_>) -> Result<Call<K>, Refusal>
    ensures { (vs : List Value) → Left message.entry vs → result ≡ call_of K.WordKind.word name vs }
{
    match name {
        Name::Open => open_of(three_numbers(message)),
        Name::Round => bare(message, Call::Round),
        Name::Strike => bare(message, Call::Strike),
        Name::Mark => Ok(Call::Mark(one_station(message)?)),
        Name::Clear => Ok(Call::Clear(one_station(message)?)),
        Name::Read => Ok(Call::Read(one_station(message)?)),
        Name::Lamp => Ok(Call::Lamp(one_station(message)?)),
    }
}

// The call that the packet asks for, or the refusal of a packet that asks for none.
pub fn asks<K: WordKind>(packet: &[u8]) -> Result<Call<K>, Refusal>
    ensures { Asks K.WordKind.word packet.now result }
{
    let message = read_message(packet)?;
    call_of(Name::try_from(message.address())?, message)
}
