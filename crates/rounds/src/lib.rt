// The rounds of a cue as code, each for all stations: what the stations hold, which lamps are lit and what is on the sheet after it.
#![tactic(auto)]

pub mod graded;
pub mod outcome;
mod reading;
pub mod round;
mod search;
mod sheet;
pub mod start;
mod stations;
pub mod tried;
mod trio;
mod view;
pub mod vote;
pub mod weak;
pub mod wires;
