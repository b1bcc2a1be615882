// A line of a script of calls.
ghost use Rattle.std.specs.Prelude.{◌≤◌, IfSome, OnSome};
ghost use Rattle.settings.specs.Lines.{Ended};
ghost use Rattle.calls_text.specs.Commands.{Fits};

use hall::call::Call;
use scan::scanner::Scanner;
use settings::line::end;

// What a line asks for. Calls have codes in place of words, and a round has the number of its sheet's entries.
#[derive(Clone, Copy)]
pub enum Command {
    Make,
    Round { entries: u16 },
    Call(Call<u16>),
}

// What an opening asks for.
fn opening(scanner: &mut Scanner) -> Option<Call<u16>> {
    Some(Call::Open {
        take: scanner.short(u16::MAX)?,
        caller: scanner.short(u16::MAX)?,
        word: scanner.short(u16::MAX)?,
    })
}

// How many entries the sheet of a round has.
fn entries(scanner: &mut Scanner) -> Option<u16>
    ensures { IfSome result (λ count. count ≤ 8192) }
{
    if scanner.ends() {
        return Some(4100);
    }
    scanner.short(8192)
}

// A call on one station. A chain of words and no table, which would hold functions.
fn on_station(scanner: &mut Scanner) -> Option<Call<u16>> {
    if scanner.take_word(b"mark") {
        scanner.short(u16::MAX).map(Call::Mark)
    } else if scanner.take_word(b"clear") {
        scanner.short(u16::MAX).map(Call::Clear)
    } else if scanner.take_word(b"read") {
        scanner.short(u16::MAX).map(Call::Read)
    } else if scanner.take_word(b"lamp") {
        scanner.short(u16::MAX).map(Call::Lamp)
    } else {
        None
    }
}

// The command that stands next. A chain of words and no table, since each is followed by a reading of its own.
fn asked(scanner: &mut Scanner) -> Option<Command>
    ensures { IfSome result Fits }
{
    if scanner.take_word(b"make") {
        Some(Command::Make)
    } else if scanner.take_word(b"round") {
        let entries = entries(scanner)?;
        Some(Command::Round { entries })
    } else if scanner.take_word(b"open") {
        opening(scanner).map(Command::Call)
    } else if scanner.take_word(b"strike") {
        Some(Command::Call(Call::Strike))
    } else {
        on_station(scanner).map(Command::Call)
    }
}

// The command that stands next, up to the end of the line; none where it cannot be read.
pub fn whole(scanner: &mut Scanner) -> Option<Command>
    ensures value { IfSome result Fits }
    ensures ended { OnSome result (Ended scanner.new.text.now scanner.new.at) }
{
    let command = asked(scanner)?;
    end(scanner).ok()?;
    Some(command)
}
