// Where a hall stands, what a round does, and what a call answers.
ghost use Rattle.std.specs.Prelude.{◌≡◌, ◌%◌};
ghost use Rattle.agreement.specs.Rounds.{kind_of};

// The state of a hall. A running cue has its take, its caller, how many kings the caller has, and how many rounds were run.
#[derive(Clone, Copy, PartialEq, Eq, Debug)]
pub enum Stage {
    Idle,
    Running {
        take: u16,
        caller: u8,
        kings: u8,
        rounds: u8,
    },
    Decided,
}

// What a round does: the caller or a king wires its code to the others, or there is a vote, with a weak or a graded outcome.
#[derive(Clone, Copy, PartialEq, Eq, Debug)]
pub enum RoundKind {
    Caller,
    Weak,
    Graded,
    King { number: u8 },
}

// What a call that is not refused answers: a word where one is read, 1 or 0 where a lamp is asked for.
#[derive(Clone, Copy)]
pub enum Answer<K> {
    Done,
    Word(K),
    // 1 or 0 by rule, as the number in a reply
    Lit(u16),
}

// The place of a round among the three that each king has.
fn place_of_three(number: u8) -> u8
    ensures { result ≡ number % 3 }
{
    number % 3
}

impl From<u8> for RoundKind {
    ghost from_gives = { λ number kind. kind ≡ kind_of number };

    // What the round of this number does.
    #[tactic(auto, unfolding(crate::specs::Rounds::kind_of))]
    fn from(number: u8) -> RoundKind {
        match (number, place_of_three(number)) {
            (1, _) => RoundKind::Caller,
            (_, 2) => RoundKind::Weak,
            (_, 0) => RoundKind::Graded,
            _ => RoundKind::King { number: number / 3 },
        }
    }
}
