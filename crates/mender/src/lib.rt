// Between rigs and weak rigs: the slack takes a rig as a weak one, the mender makes a rig of a weak one.
#![tactic(auto)]

pub mod mender;
pub mod slack;
