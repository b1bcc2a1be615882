// Where a hall stands.
ghost use Rattle.std.specs.Prelude.{◌≡◌};
ghost use Rattle.hall.specs.Outcomes.{idle};
ghost use Rattle.hall.specs.Replays.{standing};

use agreement::stage::Stage;
use rigs::VOID;

// Whether the hall is idle, running or decided; the set of broken stations, the code that each station holds, and the set of the stations whose lamps are lit.
#[derive(Clone, Copy)]
pub struct State {
    pub stage: Stage,
    pub broken: u16,
    pub held: [u16; 16],
    pub lamps: u16,
}

impl State {
    // Idle: every station holds void, and every lamp is out.
    pub(crate) fn idle(broken: u16) -> State
        ensures { result ≡ standing (idle broken) }
    {
        State {
            stage: Stage::Idle,
            broken,
            held: [VOID; 16],
            lamps: 0,
        }
    }
}
