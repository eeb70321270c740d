// The steps of a ledger as lines (document 01, "Text and listing").
#![tactic(auto)]

mod judgements;
mod lines;

pub use lines::{line, write_step};
