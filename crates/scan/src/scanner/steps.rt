// Steps over single bytes, blanks and words.
ghost use Rattle.std.specs.Prelude.{◌≡◌, ℕ, ◌+◌, ◌<◌, ◌≤◌, Bool, true, ◌||◌, length, take, drop, if◌then◌else◌, nat_le};
ghost use Rattle.scan.specs.Steps.{stands_at};

use crate::scanner::Scanner;

impl<'a> Scanner<'a> {
    // The line with these bytes, of which none is read yet.
    pub fn new(text: &'a [u8]) -> Self
        ensures { (result.text.now ≡ text.now) × (result.at ≡ 0) }
    {
        Scanner { text, at: 0 }
    }

    // How many bytes the line has.
    pub fn len(&self) -> usize
        ensures { result ≡ length self.now.text.now }
    {
        self.text.len()
    }

    // The place of the next byte, counted from 1 as editors do.
    pub fn column(&self) -> usize
        ensures { result ≡ self.now.at + 1 }
    {
        self.at + 1
    }

    // Whether this byte stands next.
    pub fn is_next(&self, byte: u8) -> bool
        ensures { result ≡ stands_at self.now.text.now self.now.at byte }
    {
        self.text.get(self.at) == Some(&byte)
    }

    // Past the next byte if it is this one.
    pub fn take_byte(&mut self, byte: u8) -> bool
        ensures value { result ≡ stands_at self.old.text.now self.old.at byte }
        ensures after { self.new.at ≡ (if result then self.old.at + 1 else self.old.at) }
        ensures same { self.new.text.now ≡ self.old.text.now }
    {
        if self.is_next(byte) {
            self.at += 1;
            true
        } else {
            false
        }
    }

    // Past spaces, tabs and carriage returns.
    pub fn skip_blanks(&mut self)
        ensures onward { self.old.at ≤ self.new.at }
        ensures same { self.new.text.now ≡ self.old.text.now }
    {
        let rest = &self.text[self.at..];
        self.at += rest
            .iter()
            .take_while(|b| matches!(b, b' ' | b'\t' | b'\r'))
            .count();
    }

    // Past the word if it stands next and no letter or digit follows it.
    #[tactic(auto, using(crate::proofs::Words::words))]
    pub fn take_word(&mut self, word: &[u8]) -> bool
        ensures after { self.new.at ≡ (if result then self.old.at + length word.now else self.old.at) }
        ensures stood { result ≡ true → take (length word.now) (drop self.old.at self.old.text.now) ≡ word.now }
        ensures same { self.new.text.now ≡ self.old.text.now }
    {
        let rest = &self.text[self.at..];
        let Some(after) = rest.strip_prefix(word) else {
            return false;
        };
        if after.first().is_some_and(|b| b.is_ascii_alphanumeric()) {
            return false;
        }
        self.at += word.len();
        true
    }

    // Whether the line is read up to its end or a comment.
    pub fn at_end(&self) -> bool
        ensures { result ≡ (nat_le (length self.now.text.now) self.now.at || stands_at self.now.text.now self.now.at 35) }
    {
        self.at >= self.text.len() || self.is_next(b'#')
    }

    // Past blanks, and whether the line is then read up to its end or a comment.
    pub fn ends(&mut self) -> bool
        ensures value { result ≡ (nat_le (length self.new.text.now) self.new.at || stands_at self.new.text.now self.new.at 35) }
        ensures onward { self.old.at ≤ self.new.at }
        ensures same { self.new.text.now ≡ self.old.text.now }
    {
        self.skip_blanks();
        self.at_end()
    }
}
