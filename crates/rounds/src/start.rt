// What a round starts from.
ghost use Rattle.std.specs.Prelude.{◌≡◌, slice_index};

// Codes of sixteen stations are a fixed array by a rule of the project.
// The cue's take and its caller, the round's number, the set of broken stations, the code that each station holds, and the set of the stations whose lamps are lit.
#[derive(Clone, Copy)]
pub struct Start {
    pub take: u16,
    pub caller: u8,
    pub round: u8,
    pub broken: u16,
    pub held: [u16; 16],
    pub lamps: u16,
}

impl Start {
    // The code that station p holds, 0 where p is 16 or more.
    pub(crate) fn code(&self, p: u8) -> u16
        ensures { result ≡ slice_index self.now.held p }
    {
        self.held.get(usize::from(p)).copied().unwrap_or(0)
    }
}
