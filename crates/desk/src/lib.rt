// The step desk: whether bytes are a ledger, and whether each of its steps follows by its rule.
#![tactic(auto)]

mod claims;
mod pass;

pub use pass::step_desk;

// The desk's answer: the bytes are no ledger (refusal 1), the lowest step that does not follow (refusal 10), or how many steps passed.
#[derive(Clone, Copy)]
pub enum Verdict {
    Ill,
    Fails(usize),
    Passes(usize),
}
