// The calls without results once questions 1 to 4 are answered: the run, and what it is answered with.
#![tactic(auto)]

mod bounds;
mod entailments;

pub use bounds::bounded;
pub use entailments::{endpoint, entails};
