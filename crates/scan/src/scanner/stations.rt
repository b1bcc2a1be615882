// Sets of stations in a line of text: stations in braces, with commas between them.
ghost use Rattle.std.specs.Prelude.{◌≡◌, ℕ, ◌+◌, ◌<◌, ◌≤◌, Bool, true, length, MatchResult, OnOk};
ghost use Rattle.scan.specs.Steps.{stands_at};

use crate::scanner::Scanner;
use sets::with;

// What was expected where a set cannot be read.
#[derive(Clone, Copy, PartialEq, Eq, Debug)]
pub enum SetFault {
    // an opening brace
    Brace,
    // a station, 0 to 15
    Station,
    // a comma or a closing brace
    CommaOrBrace,
}

impl Scanner<'_> {
    // The stations up to the closing brace.
    fn stations(&mut self) -> Result<u16, SetFault>
        ensures onward { MatchResult result (λ _. self.old.at < self.new.at) (λ _. self.old.at ≤ self.new.at) }
        ensures same { self.new.text.now ≡ self.old.text.now }
    {
        let mut set = 0;
        loop {
            self.skip_blanks();
            let station = self.number(15).ok_or(SetFault::Station)?;
            set = with(set, station as u8);
            self.skip_blanks();
            if self.take_byte(b'}') {
                return Ok(set);
            }
            if !self.take_byte(b',') {
                return Err(SetFault::CommaOrBrace);
            }
        }
    }

    // The set that stands next.
    pub fn set(&mut self) -> Result<u16, SetFault>
        ensures onward { MatchResult result (λ _. self.old.at + 2 ≤ self.new.at) (λ _. self.old.at ≤ self.new.at) }
        ensures begun { OnOk result (stands_at self.old.text.now self.old.at 123 ≡ true) }
        ensures same { self.new.text.now ≡ self.old.text.now }
    {
        if !self.take_byte(b'{') {
            return Err(SetFault::Brace);
        }
        self.skip_blanks();
        if self.take_byte(b'}') {
            return Ok(0);
        }
        self.stations()
    }
}
