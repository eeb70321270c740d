// Every program of a call, run with an index of the ledger that is made for it and dropped with it.
#![tactic(auto)]

mod arrays;
mod emitters;

pub use arrays::run;
use formula::Sort;
use operations::Op;

// What is asked: all dimensions of a formula below a number; entails and endpoint over a number; boundary; forall of a dimension; a transformation.
#[derive(Clone, Copy)]
pub enum Program {
    Bounded(Sort, usize),
    Entails(usize),
    Endpoint(usize, bool),
    Boundary,
    Forall(usize),
    Transform(Sort, Op),
}
