// Settings in lines of text.
ghost use Rattle.std.specs.Prelude.{◌≡◌, true, false, IfOk, OnOk, OnErr};
ghost use Rattle.settings.specs.Lines.{Ended};
ghost use Rattle.settings.specs.Makings.{OneSet};

use crate::making::{Floors, Kind, RigSetting, Setting, Settings};
use plan_text::line as rule_line;
use scan::scanner::Scanner;
use std::alloc::{AllocFailed, Global};
use thiserror::Error;

// What was expected where a setting cannot be read.
#[derive(Clone, Copy, Debug, Error)]
pub enum Expected {
    #[error("{0}")]
    Rule(rule_line::Expected),
    #[error("'gate' or 'scene'")]
    Words,
    #[error("a code, 0 to 65535")]
    Code,
    #[error("'script', 'noise' or 'torn'")]
    Rig,
    #[error("an entry, 0 to 65535, or the end of the line")]
    Entry,
    #[error("a seed, 0 to 4294967295")]
    Seed,
    #[error("a patch of 16 hexadecimal digits, or the end of the line")]
    Patch,
    #[error("the end of the line")]
    End,
}

// Why reading stops: the text is not as expected, or there is no memory.
// Apart from rule_line's: a type for both would still want From of each Expected, and a map from the one to the other.
#[derive(Drop)]
pub enum Stop {
    Text(Expected),
    Memory,
}

impl From<Expected> for Stop {
    fn from(e: Expected) -> Stop {
        Stop::Text(e)
    }
}

impl From<rule_line::Stop> for Stop {
    fn from(stop: rule_line::Stop) -> Stop {
        match stop {
            rule_line::Stop::Text(expected) => Stop::Text(Expected::Rule(expected)),
            rule_line::Stop::Memory => Stop::Memory,
        }
    }
}

impl<T: Drop> From<AllocFailed<T>> for Stop {
    fn from(_e: AllocFailed<T>) -> Stop {
        Stop::Memory
    }
}

// Past the end of the line, or what was expected there, in the words of settings.
pub fn end(scanner: &mut Scanner) -> Result<(), Expected>
    ensures { OnOk result (Ended scanner.new.text.now scanner.new.at) }
{
    scanner.ends().then_some(()).ok_or(Expected::End)
}

// The entries of a rig, up to the end of the line.
// A loop of its own: one for all lists would ask of a closure that each item moves the scanner on.
fn entries(heap: Global, scanner: &mut Scanner) -> Result<Vec<u16>, Stop> {
    let mut list = Vec::new(heap);
    while !scanner.ends() {
        list.push(scanner.short(u16::MAX).ok_or(Expected::Entry)?)?;
    }
    Ok(list)
}

// The rig that stands next. A chain of words and no table, since each is followed by a reading of its own.
fn rig(heap: Global, scanner: &mut Scanner) -> Result<RigSetting, Stop> {
    scanner.skip_blanks();
    if scanner.take_word(b"script") {
        Ok(RigSetting::Script(entries(heap, scanner)?))
    } else if scanner.take_word(b"torn") {
        Ok(RigSetting::Torn(entries(heap, scanner)?))
    } else if scanner.take_word(b"noise") {
        scanner.skip_blanks();
        let seed = scanner.number(u32::MAX).ok_or(Expected::Seed)?;
        Ok(RigSetting::Noise(seed))
    } else {
        Err(Stop::Text(Expected::Rig))
    }
}

// The kind of words that stands next. A chain of words: a table would be searched by a loop, for two of them.
fn kind(scanner: &mut Scanner) -> Result<Kind, Expected> {
    scanner.skip_blanks();
    if scanner.take_word(b"gate") {
        Ok(Kind::Gate)
    } else if scanner.take_word(b"scene") {
        Ok(Kind::Scene)
    } else {
        Err(Expected::Words)
    }
}

// The number of the patch that stands next, or none at the end of the line.
fn patch(scanner: &mut Scanner) -> Result<Option<u64>, Expected> {
    if scanner.ends() {
        return Ok(None);
    }
    scanner.sixteen_digits().map(Some).ok_or(Expected::Patch)
}

// The numbers of the patches that stand next, the top one first.
fn floors(scanner: &mut Scanner) -> Result<Floors<u64>, Expected> {
    Ok(Floors {
        top: patch(scanner)?,
        middle: patch(scanner)?,
        bottom: patch(scanner)?,
    })
}

// The setting that stands next, if one does. A chain of words and no table, since each is followed by a reading of its own.
fn setting(heap: Global, scanner: &mut Scanner) -> Result<Option<Setting>, Stop> {
    let setting = if scanner.take_word(b"rule") {
        scanner.skip_blanks();
        Setting::Rule(rule_line::request(heap, scanner)?)
    } else if scanner.take_word(b"words") {
        Setting::Words(kind(scanner)?)
    } else if scanner.take_word(b"rest") {
        Setting::Rest(scanner.short(u16::MAX).ok_or(Expected::Code)?)
    } else if scanner.take_word(b"rig") {
        Setting::Rig(rig(heap, scanner)?)
    } else if scanner.take_word(b"patches") {
        Setting::Patches(floors(scanner)?)
    } else {
        return Ok(None);
    };
    Ok(Some(setting))
}

impl Settings {
    // Takes the setting that stands next, up to the end of the line, and says whether there is one.
    pub fn take(&mut self, heap: Global, scanner: &mut Scanner) -> Result<bool, Stop>
        ensures untaken { IfOk result (λ taken. (taken ≡ false → self.new ≡ self.old)) }
        ensures after { IfOk result (λ taken. (taken ≡ true → OneSet self.old self.new)) }
        ensures ended { IfOk result (λ taken. (taken ≡ true → Ended scanner.new.text.now scanner.new.at)) }
        ensures refused { OnErr result (self.new ≡ self.old) }
    {
        let Some(setting) = setting(heap, scanner)? else {
            return Ok(false);
        };
        end(scanner)?;
        self.set(setting);
        Ok(true)
    }
}
