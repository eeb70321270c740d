// The calls on a ledger's bytes: face, interval, boundary, endpoint, forall, shift, substitute, entails.
#![tactic(auto)]

mod boundaries;
mod bounds;
mod entailments;
mod foralls;
mod substitutions;

pub use boundaries::boundary;
pub use bounds::{face, interval};
pub use entailments::{endpoint, entails};
pub use foralls::forall;
pub use substitutions::{shift, substitute};
