// The producer's limits on syntax (document 02, W2): `face` and `interval` of the Rust's producer/syntax.rs.
#![tactic(auto)]

mod answers;
mod depths;

pub use answers::count;
