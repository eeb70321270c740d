// Clauses of literals as bits, by value.
#![tactic(auto)]

mod ordered;
mod words;

pub use ordered::{Ordered, insert};
pub use words::{below, has, join, meet, none, ones, opposites, order, single, with};

// A clause: a bit for each of the literals of a face, of which there are at most 256.
#[derive(Clone, Copy)]
pub struct Clause {
    pub w0: u64,
    pub w1: u64,
    pub w2: u64,
    pub w3: u64,
}
