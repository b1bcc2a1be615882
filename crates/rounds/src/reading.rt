// How a station reads a code that arrives.
ghost use Rattle.std.specs.Prelude.{◌≡◌, if◌then◌else◌};
ghost use Rattle.words.specs.Kinds.{is_word};

use words::{WordKind, is_word};

// A code, read as the fallback unless it is a word's: void on a trio line, the rest word on a wire.
pub(crate) fn read_code<K: WordKind>(fallback: u16, code: u16) -> u16
    ensures { result ≡ (if is_word K.WordKind.word code then code else fallback) }
{
    if is_word::<K>(code) { code } else { fallback }
}
