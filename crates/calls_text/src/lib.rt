// Scripts of calls: halls made from settings, calls on them, and what is answered.
#![tactic(auto)]

pub mod digest;
pub mod line;
pub mod player;
pub mod said;
