// The console's hall: none until a message makes one, then one of gates under a count rule on a script rig.
#![tactic(auto)]

pub mod console;
pub mod entries;
pub mod making;
pub mod order;
pub mod stream;
