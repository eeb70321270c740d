// What a call answers: questions 1 to 4 before it runs, and 7 to 9 after its run.
#![tactic(auto)]

mod door;
mod endings;

pub use door::{one, two};
pub use endings::{deliver, ending, with_size};
use formula::Size;

// The number of the step with a call's own judgement, and the size of its result; both faces of a boundary have one size.
#[derive(Clone, Copy)]
pub struct Made {
    pub step: usize,
    pub size: Size,
}
