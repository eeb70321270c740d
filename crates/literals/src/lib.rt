// The literals of a face by rank: their numbers, ascending, in a row of 256.
#![tactic(auto)]

mod faces;
mod rows;

pub use faces::collect;
pub use rows::{blank, mask, rank};

// What was found in a face: the place behind it, and how many there are.
#[derive(Clone, Copy)]
pub struct Found {
    pub end: usize,
    pub count: usize,
}
