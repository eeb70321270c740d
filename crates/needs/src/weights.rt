// What a face still needs.
ghost use Rattle.std.specs.Prelude.{◌≡◌, ◌≤◌, ◌<◌, length, get_or};
ghost use Rattle.needs.specs.Weighing.{Asks, never, Weighed, cost as cost_of, leads as leads_of, needed as needed_of, conjoined as conjoined_of, left_over, lighter as lighter_of, constant as constant_of};

use crate::{MarkedFace, Weight};

// More than any face needs: where it can't hold.
const NEVER: usize = 1000;

// What a literal at a side needs, by the state's byte of its dimension.
fn cost(s: u8, side: u8) -> usize
    requires { side < 2 }
    ensures { result ≡ cost_of s side }
{
    match s {
        0 | 1 if s == side => 0,
        0 | 1 => NEVER,
        2 => 1,
        _ => {
            let opened = s == 4 - side;
            if opened { 1 } else { NEVER }
        }
    }
}

// Whether of the two parts of a fand the first is gone on with: one that does not hold yet, what it can't do without
// before all else, and then the one that needs more.
fn leads(x: &Weight, y: &Weight) -> bool
    ensures { result ≡ leads_of x.now y.now }
{
    if x.weight == 0 {
        return false;
    }
    if y.weight == 0 {
        return true;
    }
    if x.forced || y.forced {
        return x.forced;
    }
    y.weight <= x.weight
}

// What a fand needs of which the parts need so many, by its mark: the more of the two, or both where they share no literal.
fn needed(mark: u8, x: usize, y: usize) -> usize
    requires { (x ≤ never) × (y ≤ never) }
    ensures { result ≡ needed_of mark x y }
{
    let apart = mark == 1;
    if apart { NEVER.min(x + y) } else { x.max(y) }
}

// What a fand needs, by its mark.
fn conjoined(mark: u8, x: Weight, y: Weight) -> Weight
    requires { (x.weight ≤ never) × (y.weight ≤ never) }
    ensures { result ≡ conjoined_of mark x y }
{
    let first = if leads(&x, &y) { x } else { y };
    Weight {
        weight: needed(mark, x.weight, y.weight),
        forced: x.forced || y.forced,
        at: y.at,
        ..first
    }
}

// What a for needs: the less of its two parts, which is all that is left where the other can't hold.
fn lighter(x: Weight, y: Weight) -> Weight
    ensures { result ≡ lighter_of x y }
{
    let (less, other) = if x.weight <= y.weight { (x, y) } else { (y, x) };
    Weight {
        forced: NEVER <= other.weight && less.forced,
        at: y.at,
        ..less
    }
}

// What the literal at a place needs.
fn literal(f: &[u8], at: usize, state: &[u8]) -> Weight
    requires asks { Asks f.now at (length state.now) }
    requires bound { (2 ≤ get_or f.now at 0) × (get_or f.now at 0 < 4) }
    ensures { Weighed f.now at state.now result }
{
    let field = at + 1;
    let dim = formula::dim_at(f, field);
    let side = f[at] - 2;
    let weight = cost(state[dim], side);
    Weight {
        weight,
        dim,
        side,
        forced: weight == 1,
        at: field + formula::DIM,
    }
}

// What a constant needs, with the place behind it.
fn constant(kind: u8, next: usize) -> Weight
    ensures { result ≡ constant_of kind next }
{
    Weight {
        weight: if kind == 0 { NEVER } else { 0 },
        dim: 0,
        side: 0,
        forced: false,
        at: next,
    }
}

// What the face at a place needs at least in a state.
pub fn weigh(f: &MarkedFace, at: usize, state: &[u8]) -> Weight
    requires { Asks f.now.face.now at (length state.now) }
    ensures { Weighed f.now.face.now at state.now result }
{
    let kind = f.face[at];
    let next = at + 1;
    match kind {
        0..=1 => constant(kind, next),
        2..=3 => literal(f.face, at, state),
        _ => {
            let x = weigh(f, next, state);
            let y = weigh(f, x.at, state);
            if kind == 4 {
                conjoined(f.marks.get(at).copied().unwrap_or(0), x, y)
            } else {
                lighter(x, y)
            }
        }
    }
}
