// Records of a ledger: little-endian numbers, and whether bytes are the body of a step.
#![tactic(auto)]

mod body;
mod fields;
mod numbers;

pub use body::body_fits;
pub use numbers::{clear, get2, get4, put2, put4, zeros_from};
