// The rigs that stand on nothing else: script, noise and torn. On each a good speaker is heard as spoken by all.
#![tactic(auto)]

pub mod noise;
mod plain;
pub mod script;
pub mod torn;
