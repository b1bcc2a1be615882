// Lines of text, read from their front: words, numbers and sets of stations.
#![tactic(auto)]

pub mod scanner;
