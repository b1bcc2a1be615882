// The console: no hall yet, or the one that was made.
use hall::parts::Hall;
use rig_kinds::script::ScriptRig;
use rules::count::CountRule;
use words::gate::Gate;

pub mod serving;

// A console: its hall, once one was made.
#[derive(Drop)]
pub struct Console {
    pub hall: Option<Hall<ScriptRig, CountRule, Gate>>,
}
