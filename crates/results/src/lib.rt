// The calls with results once questions 1 to 4 are answered: the results, questions 5 and 6, the run, and what it is answered with.
#![tactic(auto)]

mod boundaries;
mod foralls;
mod substitutions;

pub use boundaries::boundary;
pub use foralls::forall;
pub use substitutions::transform;
