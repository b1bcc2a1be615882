// The planner's text: rules read from lines, and plans in words.
#![tactic(auto)]

pub mod line;
pub mod report;
