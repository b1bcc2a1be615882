// Numbers in a line of text.
ghost use Rattle.std.specs.Prelude.{◌≡◌, ℕ, ◌+◌, ◌-◌, ◌*◌, ◌<◌, ◌≤◌, Bool, true, length, MatchOption, slice_index};
ghost use Rattle.scan.specs.Numbers.{digit_value, numeral, NoDigit};

use crate::scanner::Scanner;

impl Scanner<'_> {
    // Past the digit of this radix that stands next, with its value.
    #[tactic(auto, using(crate::proofs::Numerals::digits))]
    fn take_digit(&mut self, radix: u32) -> Option<u32>
        requires { (2 ≤ radix) × (radix ≤ 16) }
        ensures value { MatchOption result (NoDigit radix self.old.text.now self.old.at × (self.new.at ≡ self.old.at)) (λ d. (d ≡ digit_value (slice_index self.old.text.now self.old.at)) × (self.new.at ≡ self.old.at + 1)) }
        ensures same { self.new.text.now ≡ self.old.text.now }
    {
        let byte = *self.text.get(self.at)?;
        let digit = char::from(byte).to_digit(radix)?;
        self.at += 1;
        Some(digit)
    }

    // The value of the digits that stand next, none of them for 0; nothing where it is over `most`.
    fn digits(&mut self, radix: u32, most: u64) -> Option<u64>
        requires { (2 ≤ radix) × (radix ≤ 16) }
        ensures value { MatchOption result (self.old.at ≤ self.new.at) (λ v. (self.old.at ≤ self.new.at) × (v ≤ most) × (v ≡ numeral radix self.old.text.now self.old.at (self.new.at - self.old.at))) }
        ensures same { self.new.text.now ≡ self.old.text.now }
    {
        let mut value = 0u64;
        while let Some(digit) = self.take_digit(radix) {
            let more = value.checked_mul(u64::from(radix))?;
            value = more.checked_add(u64::from(digit))?;
            if value > most {
                return None;
            }
        }
        Some(value)
    }

    // The decimal number that stands next, of at most `most`; else nothing is read.
    pub fn number(&mut self, most: u32) -> Option<u32>
        ensures value { MatchOption result (self.new.at ≡ self.old.at) (λ v. (self.old.at < self.new.at) × (v ≤ most) × (v ≡ numeral 10 self.old.text.now self.old.at (self.new.at - self.old.at))) }
        ensures same { self.new.text.now ≡ self.old.text.now }
    {
        let start = self.at;
        match self.digits(10, u64::from(most)) {
            Some(value) if start < self.at => Some(value as u32),
            _ => {
                self.at = start;
                None
            }
        }
    }

    // The decimal number of at most `most` that stands next after blanks.
    pub fn short(&mut self, most: u16) -> Option<u16>
        ensures value { MatchOption result (self.old.at ≤ self.new.at) (λ v. (v ≤ most) × (self.old.at < self.new.at)) }
        ensures same { self.new.text.now ≡ self.old.text.now }
    {
        self.skip_blanks();
        let value = self.number(u32::from(most))?;
        Some(value as u16)
    }

    // The number of sixteen hexadecimal digits that stands next; else nothing is read. Apart from `number`: how many digits there are decides.
    pub fn sixteen_digits(&mut self) -> Option<u64>
        ensures value { MatchOption result (self.new.at ≡ self.old.at) (λ v. (self.new.at ≡ self.old.at + 16) × (v ≡ numeral 16 self.old.text.now self.old.at 16)) }
        ensures same { self.new.text.now ≡ self.old.text.now }
    {
        let start = self.at;
        match self.digits(16, u64::MAX) {
            Some(value) if self.at - start == 16 => Some(value),
            _ => {
                self.at = start;
                None
            }
        }
    }
}
