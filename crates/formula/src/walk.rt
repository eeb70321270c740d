// One pass over a formula: its length, node count and bound, and its part of the slice.
ghost use Rattle.std.specs.Prelude.{◌≡◌, max, length};
ghost use Rattle.refusals.specs.Refusals.{map};
ghost use Rattle.formula.specs.Answers.{keeps, measurement, measurement_at, allowed, operand as operand_of, size_of, part_at};

use crate::node::DIM;
use crate::{Kind, Size, Sort, node};
use refusals::Refusal;

// The larger of two numbers.
pub fn larger(a: usize, b: usize) -> usize
    ensures { result ≡ max a b }
{
    a.max(b)
}

// The size of the one formula of the sort that starts at `at`. What the walk counts are numbers of their own, which stay
// out of memory.
pub fn measure_at(sort: Sort, s: &[u8], at: usize) -> Result<Size, Refusal>
    ensures { result ≡ measurement_at sort s.now at }
{
    if s.len() <= at {
        return Err(Refusal::NotAFormula);
    }
    let mut e = at;
    let mut pending: usize = 1;
    let mut nodes: usize = 0;
    let mut bound: usize = 0;
    while 0 < pending {
        if s.len() - e < pending {
            return Err(Refusal::NotAFormula);
        }
        match node::kind_of(sort, s[e]) {
            Kind::Nullary => pending -= 1,
            Kind::Literal => {
                if s.len() - (e + 1) < DIM {
                    return Err(Refusal::NotAFormula);
                }
                bound = larger(bound, node::dim_at(s, e + 1) + 1);
                e += DIM;
                pending -= 1;
            }
            Kind::Unary => {}
            Kind::Binary => pending += 1,
            Kind::Unknown => return Err(Refusal::NotAFormula),
        }
        e += 1;
        nodes += 1;
    }
    Ok(Size {
        len: e - at,
        nodes,
        bound,
    })
}

// The size of the formula, exactly where the whole slice is one of the sort.
pub fn measure(sort: Sort, s: &[u8]) -> Result<Size, Refusal>
    ensures { result ≡ measurement sort s.now }
{
    let z = measure_at(sort, s, 0)?;
    let whole = z.len == s.len();
    if whole {
        return Ok(z);
    }
    Err(Refusal::NotAFormula)
}

// The part of the slice that holds the one formula of the sort starting at `at`; empty where there is none.
pub fn formula_at(sort: Sort, s: &[u8], at: usize) -> &[u8]
    ensures { result.now ≡ part_at sort s.now at }
{
    match measure_at(sort, s, at) {
        Ok(z) => {
            let end = at + z.len;
            &s[at..end]
        }
        Err(_) => &s[..0],
    }
}

// Questions 3 and 4 of a size: 511 nodes, and dimensions to 254.
fn limits(z: Size) -> Result<Size, Refusal>
    ensures { result ≡ allowed z z }
{
    if 511 < z.nodes {
        return Err(Refusal::TooManyNodes);
    }
    if 255 < z.bound {
        return Err(Refusal::LargeDimension);
    }
    Ok(z)
}

// Whether a size keeps the limits.
pub fn within(z: Size) -> bool
    ensures { result ≡ keeps z }
{
    limits(z).is_ok()
}

// Questions 2 to 4 of one operand: its size, where it is exactly one formula of the sort and keeps the limits.
pub fn operand(sort: Sort, s: &[u8]) -> Result<Size, Refusal>
    ensures { result ≡ map (size_of sort) (operand_of sort s.now) }
{
    limits(measure(sort, s)?)
}
