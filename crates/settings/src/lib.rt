// The settings of a hall: read from lines of text, and made into its rig, its rule and its rest word.
#![tactic(auto)]

pub mod either;
pub mod line;
pub mod making;
