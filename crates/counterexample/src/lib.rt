// The assignment behind a no (document 02, W1).
#![tactic(auto)]

mod answers;
mod explore;
mod states;

pub use answers::counterexample;
