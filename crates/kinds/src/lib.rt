// The kinds of steps: name, reference count and predicate of each, and the fields of the predicates.
#![tactic(auto)]

mod table;

pub use table::{entry_of, field_of, fields_of, is_name, name_len, name_of, put_name};

// What the table says of a kind: how many references a step has, and the number of its predicate. Predicates count from 0 in document 01's order.
#[derive(Clone, Copy, PartialEq, Eq)]
pub struct Entry {
    pub references: usize,
    pub predicate: usize,
}

// A field of a judgement.
#[derive(Clone, Copy, PartialEq, Eq)]
pub enum Field {
    Number,
    Index,
    Context,
    End,
    Face,
    Interval,
}
