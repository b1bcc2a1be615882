// Why a call is refused: one enum for the whole product, its numbers and its words.
#![tactic(auto)]

ghost use Rattle.std.specs.Prelude.{◌≡◌};
ghost use Rattle.refusals.specs.Refusals.{number_of};

use thiserror::Error;

// The reasons for which a call is refused. A refused call changes nothing.
#[derive(Clone, Copy, PartialEq, Eq, Debug, Error)]
pub enum Refusal {
    // a station number from n on
    #[error("no such station")]
    NoSuchStation,
    // the call wants an idle hall
    #[error("the hall is not idle")]
    NotIdle,
    // the call wants a running cue
    #[error("no cue is running")]
    NotRunning,
    // the call wants a cue, running or decided
    #[error("the hall is idle")]
    Idle,
    // the call wants a decided cue
    #[error("the cue is not decided")]
    NotDecided,
    // no hall has been made yet
    #[error("no hall is made yet")]
    NotMade,
    // a hall has been made already
    #[error("a hall is made already")]
    AlreadyMade,
    // the broken set would be one that cannot fail
    #[error("the broken stations would be a set that cannot fail")]
    TooManyBroken,
    // a sheet under 4,096 entries
    #[error("the sheet is too short")]
    SheetTooShort,
    // a buffer that is too short for what would be written
    #[error("the buffer is too short")]
    BufferTooShort,
    // numbers or masks that are no lawful rule
    #[error("the rule is not lawful")]
    UnlawfulRule,
    // the station holds no word
    #[error("the station holds no word")]
    HoldsVoid,
    // a patch in which a box occurs twice
    #[error("a digit of the patch occurs twice")]
    DigitTwice,
    // bytes that are no message
    #[error("the layout of the packet is broken")]
    BrokenLayout,
    // a message to an address that names no call
    #[error("the address is unknown")]
    UnknownAddress,
    // arguments of other tags than the call's
    #[error("the tags are not those of the call")]
    WrongTags,
    // a take outside 0 to 65,535
    #[error("the take is out of range")]
    TakeOutOfRange,
    // a script with an odd number of bytes
    #[error("the script has an odd number of bytes")]
    OddScript,
    // a number that is no word's code, or parts that make no word
    #[error("no word has this code")]
    NoWord,
}

impl Refusal {
    // The number that stands for the case on a line. A method: u8::from of a refusal would not say which number it is.
    pub fn number(self) -> u8
        ensures { result ≡ number_of self }
    {
        match self {
            Refusal::NoSuchStation => 1,
            Refusal::NotIdle
            | Refusal::NotRunning
            | Refusal::Idle
            | Refusal::NotDecided
            | Refusal::NotMade
            | Refusal::AlreadyMade => 2,
            Refusal::TooManyBroken => 3,
            Refusal::SheetTooShort | Refusal::BufferTooShort => 4,
            Refusal::UnlawfulRule => 5,
            Refusal::HoldsVoid => 6,
            Refusal::DigitTwice => 7,
            Refusal::BrokenLayout => 8,
            Refusal::UnknownAddress => 9,
            Refusal::WrongTags | Refusal::TakeOutOfRange | Refusal::OddScript => 10,
            Refusal::NoWord => 11,
        }
    }
}
