// Patches: a number that sets the stations of a rig on other boxes, checked alone, and the rig under it.
#![tactic(auto)]

pub mod number;
pub mod patched;
