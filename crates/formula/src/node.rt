// Single nodes: what a kind byte is, and the field of a dimension.
ghost use Rattle.std.specs.Prelude.{◌≡◌, ◌+◌, ◌≤◌, ◌<◌, length};
ghost use Rattle.std.proofs.lemmas.List.Edits.{sets};
ghost use Rattle.formula.specs.Bytes.{dim_width, dim_at, dim_bytes};
ghost use Rattle.formula.specs.Answers.{dim_space, literal_step, kind_of};

use crate::{Advance, Kind, Place, Sort};

// The width of a dimension's field in bytes.
pub const DIM: usize = 1;

// The kind of node that the byte begins.
pub fn kind_of(sort: Sort, b: u8) -> Kind
    ensures { result ≡ kind_of sort b }
{
    match sort {
        Sort::Faces => face_kind(b),
        Sort::Intervals => interval_kind(b),
    }
}

fn face_kind(b: u8) -> Kind
    ensures { result ≡ kind_of Sort.Faces b }
{
    match b {
        0..=1 => Kind::Nullary,
        2..=3 => Kind::Literal,
        4..=5 => Kind::Binary,
        _ => Kind::Unknown,
    }
}

fn interval_kind(b: u8) -> Kind
    ensures { result ≡ kind_of Sort.Intervals b }
{
    match b {
        16..=17 => Kind::Nullary,
        18 => Kind::Literal,
        19 => Kind::Unary,
        20..=21 => Kind::Binary,
        _ => Kind::Unknown,
    }
}

// The kind byte of a literal on a side, 0 for zero and 1 for one: at0 and at1 follow each other, so no branch is needed.
pub fn literal_kind(side: u8) -> u8
    requires { side ≤ 1 }
    ensures { result ≡ 2 + side }
{
    2 + side
}

// The dimension whose field stands at `at`.
pub fn dim_at(s: &[u8], at: usize) -> usize
    requires { at + dim_width ≤ length s.now }
    ensures { (result ≡ dim_at s.now at) × (result < dim_space) }
{
    usize::from(s[at])
}

// Writes the field of dimension n at `at`.
pub fn put_dim(out: &mut [u8], at: usize, n: usize)
    requires { (at + dim_width ≤ length out.old) × (n < dim_space) }
    ensures { out.new ≡ sets out.old at (dim_bytes n) }
{
    out[at] = n as u8;
}

// Behind a literal's kind byte: its dimension, where the field is whole.
pub(crate) fn literal_step(s: &[u8], at: usize, pending: usize) -> Advance
    requires { at ≤ length s.now }
    ensures { result ≡ literal_step s.now at pending }
{
    if s.len() - at < DIM {
        return Advance::Stuck;
    }
    let n = dim_at(s, at);
    Advance::Lit(
        Place {
            at: at + DIM,
            pending,
        },
        n,
    )
}
