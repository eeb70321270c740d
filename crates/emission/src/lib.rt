// Writing to a ledger's bytes: a step more, the emit rule, and going back.
#![tactic(auto)]

mod emit;
mod grow;

pub use emit::emit_step;
pub use grow::{append, undo};
