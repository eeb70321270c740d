// Where a field ends that a ledger may hold: numbers, formulas and contexts within the limits.
ghost use Rattle.std.specs.Prelude.{◌≡◌, ◌≤◌, ◌<◌, length, drop};
ghost use Rattle.calculus.specs.Record.{context, end, fields, formula};
ghost use Rattle.calculus.specs.Parse.{read_references};
ghost use Rattle.kinds.specs.Kinds.{predicate_of};
ghost use Rattle.records.specs.Places.{ended, field_end, end_of, number_end, faces_end, values_end};

use crate::numbers;
use formula::{Size, Sort};
use kinds::Field;

// Behind the number at `at`, which is at most `most`.
fn number_end(s: &[u8], at: usize, most: usize) -> Option<usize>
    requires { at ≤ length s.now }
    ensures { result ≡ number_end s.now at most }
{
    if s.len() - at < formula::DIM {
        return None;
    }
    if most < formula::dim_at(s, at) {
        return None;
    }
    Some(at + formula::DIM)
}

// Behind the formula at `at`.
fn formula_end(sort: Sort, s: &[u8], at: usize) -> Option<usize>
    requires { at ≤ length s.now }
    ensures { result ≡ end_of (formula sort) s.now at }
{
    let Ok(z) = formula::measure_at(sort, s, at) else {
        return None;
    };
    if !formula::within(z) {
        return None;
    }
    Some(at + z.len)
}

// Behind the interval at `at`, which is i0 or i1: one node without a dimension.
fn end_end(s: &[u8], at: usize) -> Option<usize>
    requires { at ≤ length s.now }
    ensures { result ≡ end_of end s.now at }
{
    let Ok(z) = formula::measure_at(Sort::Intervals, s, at) else {
        return None;
    };
    let dimensional = z.bound != 0;
    if z.nodes != 1 || dimensional {
        return None;
    }
    Some(at + z.len)
}

// Behind n faces from `at` on, which are a context: 511 nodes in sum.
fn faces_end(s: &[u8], at: usize, n: usize) -> Option<usize>
    requires { at ≤ length s.now }
    ensures { result ≡ faces_end s.now at n }
{
    let mut e = at;
    let mut nodes: usize = 0;
    let mut bound: usize = 0;
    for _ in 0..n {
        let Ok(z) = formula::measure_at(Sort::Faces, s, e) else {
            return None;
        };
        e += z.len;
        nodes += z.nodes;
        bound = bound.max(z.bound);
    }
    if formula::within(Size {
        len: 0,
        nodes,
        bound,
    }) {
        return Some(e);
    }
    None
}

// Behind the context at `at`.
fn context_end(s: &[u8], at: usize) -> Option<usize>
    requires { at ≤ length s.now }
    ensures { result ≡ end_of context s.now at }
{
    if s.len() - at < 2 {
        return None;
    }
    let n = numbers::get2(s, at);
    faces_end(s, at + 2, n)
}

// Behind the field at `at`.
fn field_end(f: Field, s: &[u8], at: usize) -> Option<usize>
    requires { at ≤ length s.now }
    ensures { result ≡ field_end f s.now at }
{
    match f {
        Field::Number => number_end(s, at, 255),
        Field::Index => number_end(s, at, 254),
        Field::Context => context_end(s, at),
        Field::End => end_end(s, at),
        Field::Face => formula_end(Sort::Faces, s, at),
        Field::Interval => formula_end(Sort::Intervals, s, at),
    }
}

// Behind the fields of a predicate from `at` on.
pub(crate) fn values_end(s: &[u8], at: usize, predicate: usize) -> Option<usize>
    requires { (at ≤ length s.now) × (predicate < 15) }
    ensures { result ≡ values_end (fields (predicate_of predicate)) s.now at }
{
    let mut e = at;
    for &f in kinds::fields_of(predicate) {
        e = field_end(f, s, e)?;
    }
    Some(e)
}

// Behind n references of step i from `at` on: each is below i.
pub(crate) fn references_end(s: &[u8], at: usize, n: usize, i: usize) -> Option<usize>
    requires { at ≤ length s.now }
    ensures { result ≡ ended s.now (read_references i n (drop at s.now)) }
{
    let mut e = at;
    for _ in 0..n {
        if s.len() - e < 4 {
            return None;
        }
        if i <= numbers::get4(s, e) {
            return None;
        }
        e += 4;
    }
    Some(e)
}
