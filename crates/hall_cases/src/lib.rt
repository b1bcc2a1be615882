// The worked cues run on the real hall, each of its calls in each state with what refuses it, a replay, and random cues.

#![tactic(auto)]

#[cfg(test)]
mod tests;
