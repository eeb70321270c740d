// A claim typed by a person, asked, and its steps printed (document 01, "Text and listing"): what the program facesteps does
// between reading and writing.
#![tactic(auto)]

mod asking;
mod printing;

pub use asking::ask;
pub use printing::{facesteps, next_page, verdict};

// Lines that were written: the step that follows them, where its record begins, and how many bytes they take.
#[derive(Clone, Copy)]
pub struct Page {
    pub step: usize,
    pub at: usize,
    pub len: usize,
}
