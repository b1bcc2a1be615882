// The arguments of a message, where they are just so many numbers.
ghost use Rattle.std.specs.Prelude.{◌≡◌, Bool, List, ◌∷◌, None, MatchOption};
ghost use Rattle.packets.specs.Osc.{Value, number};
ghost use Rattle.packets.specs.Read.{Left};
ghost use Rattle.play.specs.Arguments.{is_none, head_number, one_number, three_numbers};

use packets::{Argument, Message};

// Whether the message has no argument.
pub fn no_argument(message: Message<'_>) -> bool
    ensures { (vs : List Value) → Left message.entry vs → result ≡ is_none vs }
{
    let mut left = message;
    left.next().is_none()
}

// The next argument, if it is a number.
pub fn next_number(left: &mut Message<'_>) -> Option<i32>
    ensures { (vs : List Value) → Left left.old vs → MatchOption result (head_number vs ≡ None) (λ z. (ws : List Value) × ((vs ≡ number z ∷ ws) × Left left.new ws)) }
{
    match left.next() {
        Some(Argument::Number(n)) => Some(n),
        _ => None,
    }
}

// The three numbers that are all arguments, or none.
pub fn three_numbers(message: Message<'_>) -> Option<(i32, i32, i32)>
    ensures { (vs : List Value) → Left message.entry vs → result ≡ three_numbers vs }
{
    let mut left = message;
    let x = next_number(&mut left)?;
    let y = next_number(&mut left)?;
    let z = next_number(&mut left)?;
    no_argument(left).then_some((x, y, z))
}

// The number that is the one argument, or none.
pub fn one_number(message: Message<'_>) -> Option<i32>
    ensures { (vs : List Value) → Left message.entry vs → result ≡ one_number vs }
{
    let mut left = message;
    let n = next_number(&mut left)?;
    no_argument(left).then_some(n)
}
