// Prefix-byte formulas of both sorts: nodes, places, measuring, and parts of a slice.
#![tactic(auto)]

mod bytes;
mod node;
mod walk;

ghost use Rattle.std.specs.Prelude.{◌≡◌};
ghost use Rattle.formula.specs.Answers.{step_of};

pub use bytes::{copy, put, same};
pub use node::{DIM, dim_at, kind_of, literal_kind, put_dim};
pub use walk::{formula_at, larger, measure, measure_at, operand, within};

// The two sorts of formula.
#[derive(Clone, Copy)]
pub enum Sort {
    Faces,
    Intervals,
}

// What a kind byte begins: a leaf, a literal, a node over one formula or over two; or nothing.
#[derive(Clone, Copy)]
pub enum Kind {
    Nullary,
    Literal,
    Unary,
    Binary,
    Unknown,
}

// The length in bytes, the node count and the bound of a formula.
#[derive(Clone, Copy)]
pub struct Size {
    pub len: usize,
    pub nodes: usize,
    pub bound: usize,
}

// A place in a row of prefix formulas: `pending` of them are still to come from byte `at` on.
#[derive(Clone, Copy)]
pub struct Place {
    pub at: usize,
    pub pending: usize,
}

// One node further: the node's kind, a literal's dimension, and the place behind it.
#[derive(Clone, Copy)]
pub enum Advance {
    Leaf(Place),
    Lit(Place, usize),
    One(Place),
    Two(Place),
    Stuck,
}

impl Place {
    // Where one formula is to come.
    pub fn start(at: usize) -> Place
        ensures { (result.at ≡ at) × (result.pending ≡ 1) }
    {
        Place { at, pending: 1 }
    }

    // Over one node of a formula of the sort. Each pending formula takes a byte or more, so too few bytes lead nowhere.
    pub fn step(self, sort: Sort, s: &[u8]) -> Advance
        ensures { result ≡ step_of sort s.now self.at self.pending }
    {
        let at = self.at;
        let pending = self.pending;
        if pending == 0 {
            return Advance::Stuck;
        }
        if s.len() < at {
            return Advance::Stuck;
        }
        if s.len() - at < pending {
            return Advance::Stuck;
        }
        let next = at + 1;
        match node::kind_of(sort, s[at]) {
            Kind::Nullary => Advance::Leaf(Place {
                at: next,
                pending: pending - 1,
            }),
            Kind::Literal => node::literal_step(s, next, pending - 1),
            Kind::Unary => Advance::One(Place { at: next, pending }),
            Kind::Binary => Advance::Two(Place {
                at: next,
                pending: pending + 1,
            }),
            Kind::Unknown => Advance::Stuck,
        }
    }
}
