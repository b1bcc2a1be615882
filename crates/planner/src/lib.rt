// The planner: what a rule allows, which kings each caller has, and how many rounds a cue takes.
#![tactic(auto)]

pub mod largest;
pub mod plan;
