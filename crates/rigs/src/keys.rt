// Keys of questions: which take, which round, between which stations; and the place of each key.
ghost use Rattle.std.specs.Prelude.{◌≡◌};
ghost use Rattle.rigs.specs.Keys.{good_round, good_wire, in_trio, good_trio, good_tell, other_than, position_of, wire_place, trio_place};
ghost use Rattle.rigs.specs.Lines.{heard_at};

// The key of a wire: what the station `from` sends to the station `to`.
#[derive(Clone, Copy)]
pub struct WireKey {
    pub take: u16,
    pub round: u8,
    pub from: u8,
    pub to: u8,
}

// The key of a trio line: what `speaker`, one of the stations a < b < c, says to all three.
#[derive(Clone, Copy)]
pub struct TrioKey {
    pub take: u16,
    pub round: u8,
    pub a: u8,
    pub b: u8,
    pub c: u8,
    pub speaker: u8,
}

// Whether a round is one of 1 to 64.
fn is_round(round: u8) -> bool
    ensures { result ≡ good_round round }
{
    (1..=64).contains(&round)
}

impl WireKey {
    // Whether the key is good: a round of 1 to 64 and two different stations below 16.
    pub fn is_good(&self) -> bool
        ensures { result ≡ good_wire self.now }
    {
        is_round(self.round) && self.from < 16 && self.to < 16 && self.from != self.to
    }

    // The place of the key, from which scripts and noise are read.
    pub fn place(&self) -> u32
        ensures { result ≡ wire_place self.now }
    {
        u32::from(self.take)
            + 16384 * u32::from(self.round)
            + 16 * u32::from(self.from)
            + u32::from(self.to)
    }
}

impl TrioKey {
    // Whether s is one of the three stations.
    pub fn holds(&self, s: u8) -> bool
        ensures { result ≡ in_trio self.now s }
    {
        [self.a, self.b, self.c].contains(&s)
    }

    // Whether the key is good: a round of 1 to 64, stations a < b < c below 16, and the speaker among them.
    pub fn is_good(&self) -> bool
        ensures { result ≡ good_trio self.now }
    {
        is_round(self.round)
            && self.a < self.b
            && self.b < self.c
            && self.c < 16
            && self.holds(self.speaker)
    }

    // Whether the key of a telling by t is good: the trio key is, and t is one of its two listeners.
    pub fn tells(&self, t: u8) -> bool
        ensures { result ≡ good_tell self.now t }
    {
        self.is_good() && self.holds(t) && t != self.speaker
    }

    // The one of the three that is neither the speaker nor t.
    pub fn other(&self, t: u8) -> u8
        ensures { result ≡ other_than self.now t }
    {
        if self.a != self.speaker && self.a != t {
            self.a
        } else if self.b != self.speaker && self.b != t {
            self.b
        } else {
            self.c
        }
    }

    // The position of s among the three: 0 for the lowest station, 2 for the highest.
    pub fn position(&self, s: u8) -> u8
        ensures { result ≡ position_of self.now s }
    {
        if s == self.a {
            0
        } else if s == self.b {
            1
        } else {
            2
        }
    }

    // The place of the key, with the position of s: the speaker's, or the teller's in a telling.
    pub fn place(&self, s: u8) -> u32
        ensures { result ≡ trio_place self.now s }
    {
        u32::from(self.take)
            + 16384 * u32::from(self.round)
            + 1024 * u32::from(self.a)
            + 64 * u32::from(self.b)
            + 4 * u32::from(self.c)
            + u32::from(self.position(s))
    }

    // What station s has of an answer, which has what each of the three hears, lowest station first.
    pub fn heard_by(&self, heard: (u16, u16, u16), s: u8) -> u16
        ensures { result ≡ heard_at self.now heard s }
    {
        match self.position(s) {
            0 => heard.0,
            1 => heard.1,
            _ => heard.2,
        }
    }
}
