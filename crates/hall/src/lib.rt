// The hall: stations that settle one word, cue after cue, although some of them are broken in any manner.
#![tactic(auto)]

pub mod call;
mod opening;
pub mod parts;
pub mod replay;
pub mod state;
