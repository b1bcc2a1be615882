// A whole history on a new hall.
ghost use Rattle.std.specs.Prelude.{◌≡◌, List, MatchResult};
ghost use Rattle.hall.specs.Halls.{model, asked};
ghost use Rattle.hall.specs.Histories.{Does, Answers, Continues};
ghost use Rattle.hall.specs.Replays.{standing, Replayed};

use crate::call::Call;
use crate::parts::Hall;
use crate::state::State;
use agreement::parts_agree;
use agreement::stage::Answer;
use refusals::Refusal;
use rigs::Rig;
use rules::Rule;
use std::alloc::{AllocError, Global};
use words::WordKind;

// What came of one call: its answer, and where the hall stood after it.
#[derive(Clone, Copy)]
pub struct Step<K> {
    pub answer: Result<Answer<K>, Refusal>,
    pub state: State,
}

// The hall after the last call, and what came of each.
#[derive(Drop)]
pub struct Run<R: Rig, Q: Rule, K: WordKind> {
    pub hall: Hall<R, Q, K>,
    pub steps: Vec<Step<K>>,
}

// One call on the hall, with where the hall stands after it.
fn play<R: Rig, Q: Rule, K: WordKind>(
    hall: &mut Hall<R, Q, K>,
    call: Call<K>,
    sheet: &mut [u16],
) -> Step<K>
    ensures does { Does R.Wire R.Rig.own Q.Rule K.WordKind (model hall.old) (asked call sheet.old) sheet.old (model hall.new) result.answer sheet.new }
    ensures answered { Answers R.Wire R.Rig.own Q.Rule K.WordKind (model hall.old) (asked call sheet.old) result.answer }
    ensures history { Continues R.Wire R.Rig.own Q.Rule K.WordKind (model hall.old) (asked call sheet.old) (model hall.new) }
    ensures state { result.state ≡ standing (model hall.new).state }
{
    let answer = hall.call(call, sheet);
    let state = hall.state();
    Step { answer, state }
}

// Makes a hall and plays the calls on it, in their order, each round on the sheet as the calls before left it. Where there is no memory for the answers nothing is played.
pub fn replay<R: Rig + Drop, Q: Rule + Drop, K: WordKind>(
    heap: Global,
    rig: R,
    rule: Q,
    rest: K,
    calls: &[Call<K>],
    sheet: &mut [u16],
) -> Result<Run<R, Q, K>, AllocError>
    ensures { MatchResult result (λ p. Replayed R.Wire R.Rig.own Q.Rule K.WordKind rig rule rest calls.now sheet.old (model p.hall) p.steps.items sheet.new) (λ _. sheet.new ≡ sheet.old) }
{
    let mut steps = Vec::with_capacity(heap, calls.len())?;
    parts_agree(&rig, &rule, &rest);
    let mut hall = Hall::new(rig, rule, rest);
    for call in calls {
        steps.push_reserved(play(&mut hall, *call, sheet));
    }
    Ok(Run { hall, steps })
}
