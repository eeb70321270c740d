// One pass over the nodes of a formula: the size of what it becomes, and the bytes.
#![tactic(auto)]

mod rewriting;
mod sides;
mod weighing;

pub use rewriting::rewrite;
pub use sides::side;
pub use weighing::{NOTHING, ONE_BYTE, place_by, weigh};

// What a pass does to the dimensions: raises those from k on; lowers those above k and replaces k itself; or makes the
// faces of a boundary.
#[derive(Clone, Copy)]
pub enum Rule {
    Up(usize),
    Down(usize),
    Ends,
}
