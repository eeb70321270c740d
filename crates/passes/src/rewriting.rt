// The bytes of forall, shift and substitution in one pass over the operand's nodes.
ghost use Rattle.std.specs.Prelude.{◌+◌, ◌≤◌, ◌<◌, [], ◌∷◌, length};
ghost use Rattle.formula.specs.Bytes.{dim_bytes};
ghost use Rattle.formula.specs.Answers.{dim_space};
ghost use Rattle.passes.specs.Rewriting.{moved_to, moved_bytes, image_of, tokens_of, Fielded, FieldedAt, Rewritable, Wrote, spell};
ghost use Rattle.passes.specs.Stepping.{token_over, DimOver};

use crate::{Rule, weighing};
use formula::{Advance, Place, Sort};

// One byte, written at `o`; answers the place after it.
pub(crate) fn byte_out(b: u8, out: &mut [u8], o: usize) -> usize
    requires { o < length out.old }
    ensures { Wrote out.old o (b ∷ []) result out.new }
{
    out[o] = b;
    o + 1
}

// A literal's kind byte and dimension, written at `o`; answers the place after them.
pub(crate) fn bytes_out(b: u8, n: usize, out: &mut [u8], o: usize) -> usize
    requires { (n < dim_space) × (o + length (b ∷ dim_bytes n) ≤ length out.old) }
    ensures { Wrote out.old o (b ∷ dim_bytes n) result out.new }
{
    out[o] = b;
    formula::put_dim(out, o + 1, n);
    o + 1 + formula::DIM
}

// A whole slice, written at `o`; answers the place after it.
fn part_out(part: &[u8], out: &mut [u8], o: usize) -> usize
    requires { o + length part.now ≤ length out.old }
    ensures { Wrote out.old o part.now result out.new }
{
    formula::copy(part, out, o);
    o + part.len()
}

// A literal of kind byte b at dimension n: moved, or replaced by its side's formula.
fn literal_out(
    b: u8,
    n: usize,
    rule: Rule,
    zero: &[u8],
    one: &[u8],
    out: &mut [u8],
    o: usize,
) -> usize
    requires { (n < dim_space) × Fielded (moved_to rule n) × (o + length (moved_bytes b (moved_to rule n) zero.now one.now) ≤ length out.old) }
    ensures { Wrote out.old o (moved_bytes b (moved_to rule n) zero.now one.now) result out.new }
{
    match weighing::move_dim(rule, n) {
        Some(m) => bytes_out(b, m, out, o),
        None => {
            if b == 3 {
                return part_out(one, out, o);
            }
            part_out(zero, out, o)
        }
    }
}

// What a node of kind byte b becomes, by the step over it, written at `o`; answers the place after it.
fn node_out(
    b: u8,
    x: Advance,
    rule: Rule,
    zero: &[u8],
    one: &[u8],
    out: &mut [u8],
    o: usize,
) -> usize
    requires { DimOver x × FieldedAt rule (token_over b x) × (o + length (image_of rule zero.now one.now (token_over b x)) ≤ length out.old) }
    ensures { Wrote out.old o (image_of rule zero.now one.now (token_over b x)) result out.new }
{
    if let Advance::Lit(_, n) = x {
        return literal_out(b, n, rule, zero, one, out, o);
    }
    byte_out(b, out, o)
}

// The formula with its literals moved by the rule, and those that it hits replaced by their side's formula.
pub fn rewrite(sort: Sort, s: &[u8], rule: Rule, zero: &[u8], one: &[u8], out: &mut [u8]) -> usize
    requires { Rewritable sort rule s.now zero.now one.now (length out.old) }
    ensures { Wrote out.old 0 (spell (image_of rule zero.now one.now) (tokens_of sort s.now)) result out.new }
{
    let mut p = Place::start(0);
    let mut o = 0;
    while 0 < p.pending {
        let at = p.at;
        let x = p.step(sort, s);
        o = node_out(s[at], x, rule, zero, one, out, o);
        p = weighing::place_by(x);
    }
    o
}
