// Texts of numbers and formulas, written (document 01, "Text and listing").
#![tactic(auto)]

mod bytes;
mod formulas;
mod numbers;

pub use formulas::write_formula;

// An output, and the place in it from which the next text is written. On a slice without bytes it only measures.
#[derive(Drop)]
pub struct Writer<'a> {
    pub out: &'a mut [u8],
    pub to: usize,
}
