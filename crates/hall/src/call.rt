// The calls on a hall.

// A call with its arguments. A round is given its sheet beside the call.
#[derive(Clone, Copy)]
pub enum Call<K> {
    // starts a cue: the caller opens it with a word
    Open { take: u16, caller: u16, word: K },
    // runs the next round of the cue
    Round,
    // ends the cue
    Strike,
    // makes a station broken
    Mark(u16),
    // makes a station good
    Clear(u16),
    // asks for the word that a station holds
    Read(u16),
    // asks whether the lamp of a station is lit
    Lamp(u16),
}
