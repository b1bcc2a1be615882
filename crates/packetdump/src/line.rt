// The line that shows a packet.
ghost use Rattle.std.specs.Prelude.{◌≡◌, ℕ, ◌<◌, List, [], ◌∷◌, Some, ◌++◌, IfOk, string_bytes, codes, decimal, OnOk};
ghost use Rattle.std.specs.List.{flat_map};
ghost use Rattle.packets.specs.Osc.{Value, Content};
ghost use Rattle.packets.specs.Read.{value, Left, Says};
ghost use Rattle.refusals.specs.Refusals.{number_of};
ghost use Rattle.packetdump.specs.Lines.{hex_digit, marked, itself, char_bytes, hex_byte, value_bytes, argument_bytes, message_line, Shows};

use packets::{Argument, Message, read_message};
use refusals::Refusal;
use std::alloc::{AllocError, Global};
use std::fmt;
use std::fmt::Display;

// The lowest byte that is shown as itself in an address, behind the space, and in a text.
const ADDRESS_LOW: u8 = 33;

const TEXT_LOW: u8 = 32;

// A hexadecimal digit.
fn hex_digit(d: u8) -> &'static str
    requires { d < 16 }
    ensures value { result.now ≡ hex_digit d ∷ [] }
{
    match d {
        0 => "0",
        1 => "1",
        2 => "2",
        3 => "3",
        4 => "4",
        5 => "5",
        6 => "6",
        7 => "7",
        8 => "8",
        9 => "9",
        10 => "a",
        11 => "b",
        12 => "c",
        13 => "d",
        14 => "e",
        _ => "f",
    }
}

// Whether a byte is shown behind a backslash.
fn is_marked(b: u8) -> bool
    ensures { result ≡ marked b }
{
    b == b'"' || b == b'\\'
}

// Whether a byte is shown as itself.
fn is_itself(low: u8, b: u8) -> bool
    ensures { result ≡ itself low b }
{
    low <= b && b < 127
}

// A byte of a string; one below `low` is not shown as itself.
#[derive(Clone, Copy)]
struct Char {
    low: u8,
    byte: u8,
}

impl fmt::Display for Char {
    ghost output = { λ c. Some (char_bytes c.low c.byte) };

    fn fmt<W: fmt::Write>(&self, f: &mut fmt::Formatter<W>) -> fmt::Result {
        let b = self.byte;
        if is_marked(b) {
            f.write_str(if b == b'"' { "\\\"" } else { "\\\\" })
        } else if is_itself(self.low, b) {
            f.write_str(char::from(b).encode_utf8(&mut [0; 1]))
        } else {
            f.write_str("\\x")?;
            f.write_str(hex_digit(b / 16))?;
            f.write_str(hex_digit(b % 16))
        }
    }
}

// The bytes of a string.
#[derive(Clone, Copy)]
struct Chars<'a> {
    low: u8,
    bytes: &'a [u8],
}

impl fmt::Display for Chars<'_> {
    ghost output = { λ s. Some (flat_map (char_bytes s.low) s.bytes.now) };

    fn fmt<W: fmt::Write>(&self, f: &mut fmt::Formatter<W>) -> fmt::Result {
        let low = self.low;
        for byte in self.bytes {
            Char { low, byte: *byte }.fmt(f)?;
        }
        Ok(())
    }
}

// The bytes of a blob, two hexadecimal digits for each.
#[derive(Clone, Copy)]
struct Digits<'a>(&'a [u8]);

impl fmt::Display for Digits<'_> {
    ghost output = { λ d. Some (flat_map hex_byte d.0.now) };

    fn fmt<W: fmt::Write>(&self, f: &mut fmt::Formatter<W>) -> fmt::Result {
        for byte in self.0 {
            f.write_str(hex_digit(*byte / 16))?;
            f.write_str(hex_digit(*byte % 16))?;
        }
        Ok(())
    }
}

// An argument: a number in decimal, a text in quotes, a blob in hexadecimal.
#[derive(Clone, Copy)]
struct Shown<'a>(Argument<&'a [u8]>);

impl fmt::Display for Shown<'_> {
    ghost output = { λ s. Some (value_bytes (value s.0)) };

    fn fmt<W: fmt::Write>(&self, f: &mut fmt::Formatter<W>) -> fmt::Result {
        match self.0 {
            Argument::Number(n) => n.fmt(f),
            Argument::Text(bytes) => {
                let low = TEXT_LOW;
                f.write_str("\"")?;
                Chars { low, bytes }.fmt(f)?;
                f.write_str("\"")
            }
            Argument::Blob(bytes) => {
                f.write_str("0x")?;
                Digits(bytes).fmt(f)
            }
        }
    }
}

// Appends the arguments that a message has still to give.
fn push_arguments(line: &mut String, message: Message<'_>) -> Result<(), AllocError>
    ensures { (vs : List Value) → Left message.entry vs → OnOk result (string_bytes line.new ≡ string_bytes line.old ++ flat_map argument_bytes vs) }
{
    let mut message = message;
    while let Some(argument) = message.next() {
        write!(line, " {}", Shown(argument))?;
    }
    Ok(())
}

// The line that shows a message.
fn message_line(heap: Global, message: Message<'_>) -> Result<String, AllocError>
    ensures { (c : Content) → Says message.entry c → IfOk result (λ s. string_bytes s ≡ message_line c) }
{
    let address = Chars {
        low: ADDRESS_LOW,
        bytes: message.address(),
    };
    let mut line = format!(in heap; "{address}")?;
    push_arguments(&mut line, message)?;
    Ok(line)
}

// The line that shows a refusal: its number, then what it says in words.
fn refusal_line(heap: Global, refusal: Refusal) -> Result<String, AllocError>
    ensures { IfOk result (λ s. (words : List ℕ) × (string_bytes s ≡ (codes "refused " ++ (decimal (number_of refusal) ++ codes ": ")) ++ words)) }
{
    // In two steps: nothing is known of what a refusal prints, so one `format!` would tell nothing.
    let n = refusal.number();
    let mut line = format!(in heap; "refused {n}: ")?;
    let words = refusal.to_string(heap)?;
    line.push_str(words.as_str())?;
    Ok(line)
}

// The line that shows a packet.
pub(crate) fn line_of(heap: Global, packet: &[u8]) -> Result<String, AllocError>
    ensures { IfOk result (λ s. Shows packet.now (string_bytes s)) }
{
    match read_message(packet) {
        Ok(message) => message_line(heap, message),
        Err(refusal) => refusal_line(heap, refusal),
    }
}
