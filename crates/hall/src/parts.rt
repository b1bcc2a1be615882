// What a hall is made of, and where it stands.
ghost use Rattle.std.specs.Prelude.{◌≡◌, Bool, true};
ghost use Rattle.hall.specs.Bounds.{bounded};

use crate::state::State;

pub mod calls;
mod steps;

// A hall: its rig, its rule and its rest word, and where it stands.
#[derive(Drop)]
pub struct Hall<R, Q, K> {
    rig: R,
    rule: Q,
    rest: K,
    state: State,
    ghost within: { bounded state.stage ≡ true },
}
