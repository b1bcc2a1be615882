// Piles of patches: any number of patches, one over the other, over any rig or over a mender on any weak rig.
#![tactic(auto)]

pub mod floors;
pub mod hearing;
