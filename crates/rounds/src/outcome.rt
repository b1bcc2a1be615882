// What a round leaves.

// The code that each station holds after a round, and the set of the stations whose lamps are lit.
#[derive(Clone, Copy)]
pub struct Outcome {
    pub held: [u16; 16],
    pub lamps: u16,
}
