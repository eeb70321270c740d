// The faces of a boundary, one side at a time, in one pass. A negation turns the side round for what stands below it, so
// a stack keeps the side of each expression that is still to come.
ghost use Rattle.std.specs.Prelude.{◌≡◌, [], ◌∷◌, ◌+◌, ◌-◌, ◌≤◌, ◌<◌, eqb, length, get_or};
ghost use Rattle.formula.specs.Formula.{end_of};
ghost use Rattle.formula.specs.Answers.{pick, kind_of};
ghost use Rattle.passes.specs.Rewriting.{side_bytes, tokens_of, sides, Wrote, Sided};
ghost use Rattle.passes.specs.Stepping.{kind_over, token_over, DimOver, Pushed};

use crate::{rewriting, weighing};
use formula::{Advance, Place, Sort};

// The side e of i0 or i1: ft where the interval is that end, else ff.
fn leaf_side(b: u8, e: u8) -> u8
    requires { e ≤ 1 }
    ensures { result ≡ pick (eqb b (16 + e)) 1 0 }
{
    u8::from(b == 16 + e)
}

// The side e of a meet or a join: for or fand, and the other way round.
fn pair_side(b: u8, e: u8) -> u8
    requires { e ≤ 1 }
    ensures { result ≡ pick (eqb b 20) (5 - e) (4 + e) }
{
    if b == 20 { 5 - e } else { 4 + e }
}

// What a node of kind byte b becomes at the side e, by the step over it, written at `o`; a negation becomes nothing.
// Answers the place after it.
fn side_out(b: u8, x: Advance, e: u8, out: &mut [u8], o: usize) -> usize
    requires { (e ≤ 1) × (kind_of Sort.Intervals b ≡ kind_over x) × DimOver x × (o + length (side_bytes e (token_over b x)) ≤ length out.old) }
    ensures { Wrote out.old o (side_bytes e (token_over b x)) result out.new }
{
    match x {
        Advance::Leaf(_) => rewriting::byte_out(leaf_side(b, e), out, o),
        Advance::Lit(_, n) => rewriting::bytes_out(formula::literal_kind(e), n, out, o),
        Advance::Two(_) => rewriting::byte_out(pair_side(b, e), out, o),
        Advance::One(_) | Advance::Stuck => o,
    }
}

// The stack behind a node, by the step over it; e stood on top, at place `top`.
fn push(x: Advance, e: u8, ends: &mut [u8; 1024], top: usize)
    requires { (e ≤ 1) × (top + 1 < 1024) × (length ends.old ≡ 1024) × (get_or ends.old top 0 ≡ e) }
    ensures { Pushed (kind_over x) e ends.old top ends.new }
{
    match x {
        Advance::One(_) => ends[top] = 1 - e,
        Advance::Two(_) => ends[top + 1] = e,
        Advance::Leaf(_) | Advance::Lit(_, _) | Advance::Stuck => {}
    }
}

// The face where the expression is the end e; answers its length.
pub fn side(s: &[u8], e: u8, out: &mut [u8]) -> usize
    requires { Sided s.now e (length out.old) }
    ensures { Wrote out.old 0 (sides (tokens_of Sort.Intervals s.now) (end_of e ∷ [])) result out.new }
{
    let mut ends = [0u8; 1024];
    ends[0] = e;
    let mut p = Place::start(0);
    let mut o = 0;
    while 0 < p.pending {
        let at = p.at;
        let top = p.pending - 1;
        let here = ends[top];
        let x = p.step(Sort::Intervals, s);
        o = side_out(s[at], x, here, out, o);
        push(x, here, &mut ends, top);
        p = weighing::place_by(x);
    }
    o
}
