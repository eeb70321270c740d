// Texts (document 01, "Text and listing"): formulas, numbers and claims typed by a person.
#![tactic(auto)]

mod formulas;
mod numbers;
mod reads;
mod tokens;
mod words;

pub use reads::{read_claim, read_formula};
pub use words::{first_kind, names};

// A claim: d and the lengths of its two faces.
#[derive(Clone, Copy)]
pub struct Claim {
    pub d: usize,
    pub left: usize,
    pub right: usize,
}

// What a byte can be: a parenthesis, a separator, or a part of a word.
#[derive(Clone, Copy, PartialEq, Eq)]
pub enum Class {
    Opening,
    Closing,
    Separator,
    Spelling,
}

// What stands at a place of a text: a parenthesis with the place behind it, a word with its two ends, or nothing more.
#[derive(Clone, Copy)]
pub enum Token {
    Open(usize),
    Close(usize),
    Word(usize, usize),
    End,
}

// A number and the place behind it.
#[derive(Clone, Copy)]
pub struct Numeral {
    n: usize,
    end: usize,
}

// Where the reader is: in the text, in the output, and how many nodes the formula may still have.
#[derive(Clone, Copy)]
pub struct Cursor {
    at: usize,
    to: usize,
    left: usize,
}
