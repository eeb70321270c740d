// The size of a result before any of it is written: each node of the operand becomes something of a known size.
ghost use Rattle.std.specs.Prelude.{◌≡◌, ◌<◌};
ghost use Rattle.formula.specs.Answers.{dim_space};
ghost use Rattle.passes.specs.Rewriting.{moved_to, plain_weight, moved_weight, weight_of, weighs, tokens_of, Whole, Small};
ghost use Rattle.passes.specs.Stepping.{place_by, DimOver, weight_over};

use crate::Rule;
use formula::{Advance, Kind, Place, Size, Sort};

// Where dimension n goes: to another, or it is the one that is replaced.
pub(crate) fn move_dim(rule: Rule, n: usize) -> Option<usize>
    requires { n < dim_space }
    ensures { result ≡ moved_to rule n }
{
    match rule {
        Rule::Up(k) => raised(k, n),
        Rule::Down(k) => lowered(k, n),
        Rule::Ends => Some(n),
    }
}

fn raised(k: usize, n: usize) -> Option<usize>
    requires { n < dim_space }
    ensures { result ≡ moved_to (Rule.Up k) n }
{
    if n < k {
        return Some(n);
    }
    Some(n + 1)
}

fn lowered(k: usize, n: usize) -> Option<usize>
    ensures { result ≡ moved_to (Rule.Down k) n }
{
    if n < k {
        return Some(n);
    }
    if n == k {
        return None;
    }
    Some(n - 1)
}

// The place that a step led to. In a formula no step is stuck; its answer is no place that the caller holds, since to
// choose between two of those keeps both in memory.
pub fn place_by(x: Advance) -> Place
    ensures { result ≡ place_by x }
{
    match x {
        Advance::Leaf(q) | Advance::Lit(q, _) | Advance::One(q) | Advance::Two(q) => q,
        Advance::Stuck => Place { at: 0, pending: 0 },
    }
}

// The size of nothing, and that of a node of one byte.
pub const NOTHING: Size = Size {
    len: 0,
    nodes: 0,
    bound: 0,
};

pub const ONE_BYTE: Size = Size {
    len: 1,
    nodes: 1,
    bound: 0,
};

// The boundary of a negation has no node for it.
fn plain_weight(rule: Rule, kind: Kind) -> Size
    ensures { result ≡ plain_weight rule kind }
{
    match (rule, kind) {
        (Rule::Ends, Kind::Unary) => NOTHING,
        _ => ONE_BYTE,
    }
}

fn literal_weight(rule: Rule, n: usize, hit: Size) -> Size
    requires { n < dim_space }
    ensures { result ≡ moved_weight (moved_to rule n) hit }
{
    match move_dim(rule, n) {
        Some(m) => Size {
            len: 1 + formula::DIM,
            nodes: 1,
            bound: m + 1,
        },
        None => hit,
    }
}

// The size of what a node becomes, by the step over it.
fn weight(x: Advance, rule: Rule, hit: Size) -> Size
    requires { DimOver x }
    ensures { result ≡ weight_over rule hit x }
{
    match x {
        Advance::Leaf(_) => plain_weight(rule, Kind::Nullary),
        Advance::Lit(_, n) => literal_weight(rule, n, hit),
        Advance::One(_) => plain_weight(rule, Kind::Unary),
        Advance::Two(_) => plain_weight(rule, Kind::Binary),
        Advance::Stuck => plain_weight(rule, Kind::Unknown),
    }
}

// The size of what the formula becomes, a replaced literal becoming a formula of size `hit`.
pub fn weigh(sort: Sort, s: &[u8], rule: Rule, hit: Size) -> Size
    requires { Whole sort s.now × Small hit }
    ensures { result ≡ weighs (weight_of sort rule hit) (tokens_of sort s.now) }
{
    let mut p = Place::start(0);
    let mut len = 0;
    let mut nodes = 0;
    let mut bound = 0;
    while 0 < p.pending {
        let x = p.step(sort, s);
        let z = weight(x, rule, hit);
        len += z.len;
        nodes += z.nodes;
        bound = formula::larger(bound, z.bound);
        p = place_by(x);
    }
    Size { len, nodes, bound }
}
