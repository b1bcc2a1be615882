// What stations say to each other: word kinds, which give each word a code. The gate and the scene are supplied.
#![tactic(auto)]

ghost use Rattle.std.specs.Prelude.{◌≡◌, ℕ, Bool, Option};
ghost use Rattle.words.specs.Kinds.{is_word, Back, Only, Sized, Full};

pub mod gate;
pub mod scene;

// A kind of words. Its meaning is its table: the code of each word, and the word of each code.
// Both conversions stand here and not in `From` and `TryFrom`, since the laws below tie one to the other.
pub trait WordKind: Copy {
    // how many words there are
    ghost size: { ℕ };

    // the code of each word
    ghost code: { Self → ℕ };

    // the word that a number leads to, if any
    ghost word: { ℕ → Option Self };

    // The code of the word.
    fn encode(self) -> u16
        ensures { result ≡ code self };

    // The word of a code, or none where the number is no word's code.
    fn decode(number: u16) -> Option<Self>
        ensures { result ≡ word number };

    ghost sized: { Sized size };

    ghost full: { Full size word };

    ghost back: { Back code word };

    ghost only: { Only code word };
}

// Whether a code is a word's.
pub fn is_word<K: WordKind>(code: u16) -> bool
    ensures { result ≡ is_word K.WordKind.word code }
{
    K::decode(code).is_some()
}
