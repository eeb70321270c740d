// How many dimensions a face still needs, of a state in the search for an assignment.
#![tactic(auto)]

mod marks;
mod weights;

pub use marks::{MarkedFace, mark};
pub use weights::weigh;

// What a face needs at least, one dimension and side that may be chosen for it, whether the face holds nowhere without,
// and the place behind it. Nothing is proved of `forced`: it only says what to choose first.
#[derive(Clone, Copy)]
pub struct Weight {
    pub weight: usize,
    pub dim: usize,
    pub side: u8,
    pub forced: bool,
    pub at: usize,
}
