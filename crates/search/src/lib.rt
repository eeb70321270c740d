// The search of `cover`: its turns, and the steps that it emits.
#![tactic(auto)]

mod covers;
mod turns;

pub use covers::cover;
