// The operations on formulas: forall, boundary, shift and substitution, each first by its size and then by its bytes.
#![tactic(auto)]

mod results;

pub use results::{boundary, boundary_size, forall, forall_size, transform, transform_size};

// The operations on dimensions, with their cutoff: shift, and substitution of the interval that stands beside it.
#[derive(Clone, Copy)]
pub enum Op {
    DShift(usize),
    DSubst(usize),
}
