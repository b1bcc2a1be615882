// The numbers of a message as the numbers of a call.
ghost use Rattle.std.specs.Prelude.{◌≡◌};
ghost use Rattle.play.specs.Numbers.{short_in, station_in, word_in};

use words::WordKind;

// A number from 0 to 65,535, or none.
pub fn short(number: i32) -> Option<u16>
    ensures { result ≡ short_in number }
{
    u16::try_from(number).ok()
}

// A station: outside 0 to 65,535 it counts as 65,535, which no hall has.
pub fn station(number: i32) -> u16
    ensures { result ≡ station_in number }
{
    short(number).unwrap_or(u16::MAX)
}

// The word that the number is the code of, or none.
pub fn word<K: WordKind>(number: i32) -> Option<K>
    ensures { result ≡ word_in K.WordKind.word number }
{
    short(number).and_then(|code| K::decode(code))
}
