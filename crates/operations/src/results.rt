// The results of the operations: first their size, then their bytes.
ghost use Rattle.std.specs.Prelude.{◌≡◌, length};
ghost use Rattle.formula.specs.Formula.{lo, hi};
ghost use Rattle.formula.specs.Answers.{size_of, operand};
ghost use Rattle.refusals.specs.Refusals.{map};
ghost use Rattle.operations.specs.Results.{foralled, boundaried, transformed, Answered, AnsweredBoth};
ghost use Rattle.operations.specs.Fitting.{resized_by, hit_size, beside_refused, Fitting, kept_bytes};
ghost use Rattle.passes.specs.Rewriting.{Small, Wrote};

use crate::Op;
use formula::{Size, Sort};
use passes::{NOTHING, ONE_BYTE, Rule};
use refusals::Refusal;

// The size of what an operand becomes.
fn resized(sort: Sort, s: &[u8], rule: Rule, hit: Size) -> Result<Size, Refusal>
    requires { Small hit }
    ensures { result ≡ resized_by sort rule hit (operand sort s.now) }
{
    formula::operand(sort, s)?;
    let z = passes::weigh(sort, s, rule, hit);
    if formula::within(z) {
        return Ok(z);
    }
    Err(Refusal::LargeResult)
}

// The size of ∀k of a face.
pub fn forall_size(s: &[u8], k: usize) -> Result<Size, Refusal>
    ensures { result ≡ map (size_of Sort.Faces) (foralled k s.now) }
{
    resized(Sort::Faces, s, Rule::Down(k), ONE_BYTE)
}

// The size of each of the two faces of an interval's boundary.
pub fn boundary_size(s: &[u8]) -> Result<Size, Refusal>
    ensures { result ≡ map (size_of Sort.Faces) (boundaried lo s.now) }
{
    resized(Sort::Intervals, s, Rule::Ends, NOTHING)
}

// The size of what stands for a replaced literal: the interval itself, or a face of its boundary.
fn hit_size(sort: Sort, r: &[u8]) -> Result<Size, Refusal>
    ensures { result ≡ hit_size sort (operand Sort.Intervals r.now) }
{
    match sort {
        Sort::Faces => boundary_size(r),
        Sort::Intervals => formula::operand(Sort::Intervals, r),
    }
}

// What is answered of an operand beside one that is refused: each question is asked of both before the next.
fn beside(x: Result<Size, Refusal>, e: Refusal) -> Result<Size, Refusal>
    ensures { result ≡ beside_refused e x }
{
    match x {
        Ok(_) => Err(e),
        Err(q) => Err(refusals::earlier(q, e)),
    }
}

// The size of a substitution's result.
fn subst_size(sort: Sort, k: usize, s: &[u8], r: &[u8]) -> Result<Size, Refusal>
    ensures { result ≡ map (size_of sort) (transformed sort (Op.DSubst k) s.now r.now) }
{
    match hit_size(sort, r) {
        Ok(z) => resized(sort, s, Rule::Down(k), z),
        Err(e) => beside(formula::operand(sort, s), e),
    }
}

// The size of a transformed formula. A shift does not read r.
pub fn transform_size(sort: Sort, op: Op, s: &[u8], r: &[u8]) -> Result<Size, Refusal>
    ensures { result ≡ map (size_of sort) (transformed sort op s.now r.now) }
{
    match op {
        Op::DShift(k) => resized(sort, s, Rule::Up(k), ONE_BYTE),
        Op::DSubst(k) => subst_size(sort, k, s, r),
    }
}

// ∀k of the face s, into out.
pub fn forall(s: &[u8], k: usize, out: &mut [u8]) -> Result<Size, Refusal>
    ensures { Answered Sort.Faces (foralled k s.now) out.old result out.new }
{
    let z = forall_size(s, k)?;
    if out.len() < z.len {
        return Err(Refusal::ShortOutput);
    }
    let ff = [0u8; 1];
    passes::rewrite(Sort::Faces, s, Rule::Down(k), &ff, &ff, out);
    Ok(z)
}

// The face s with the literals on k replaced by their side of the interval r's boundary.
fn face_subst_out(k: usize, s: &[u8], r: &[u8], out: &mut [u8]) -> usize
    requires { Fitting Sort.Faces (transformed Sort.Faces (Op.DSubst k) s.now r.now) (length out.old) }
    ensures { Wrote out.old 0 (kept_bytes Sort.Faces (transformed Sort.Faces (Op.DSubst k) s.now r.now)) result out.new }
{
    let mut zero = [0u8; 1024];
    let mut one = [0u8; 1024];
    let n = passes::side(r, 0, &mut zero);
    let m = passes::side(r, 1, &mut one);
    passes::rewrite(Sort::Faces, s, Rule::Down(k), &zero[..n], &one[..m], out)
}

fn subst_out(sort: Sort, k: usize, s: &[u8], r: &[u8], out: &mut [u8]) -> usize
    requires { Fitting sort (transformed sort (Op.DSubst k) s.now r.now) (length out.old) }
    ensures { Wrote out.old 0 (kept_bytes sort (transformed sort (Op.DSubst k) s.now r.now)) result out.new }
{
    match sort {
        Sort::Faces => face_subst_out(k, s, r, out),
        Sort::Intervals => passes::rewrite(Sort::Intervals, s, Rule::Down(k), r, r, out),
    }
}

// The bytes of a transformed formula that keeps the limits and fits.
fn transform_out(sort: Sort, op: Op, s: &[u8], r: &[u8], out: &mut [u8]) -> usize
    requires { Fitting sort (transformed sort op s.now r.now) (length out.old) }
    ensures { Wrote out.old 0 (kept_bytes sort (transformed sort op s.now r.now)) result out.new }
{
    match op {
        Op::DShift(k) => passes::rewrite(sort, s, Rule::Up(k), r, r, out),
        Op::DSubst(k) => subst_out(sort, k, s, r, out),
    }
}

// The formula s shifted, or with the interval r substituted, into out. A shift does not read r.
pub fn transform(sort: Sort, op: Op, s: &[u8], r: &[u8], out: &mut [u8]) -> Result<Size, Refusal>
    ensures { Answered sort (transformed sort op s.now r.now) out.old result out.new }
{
    let z = transform_size(sort, op, s, r)?;
    if out.len() < z.len {
        return Err(Refusal::ShortOutput);
    }
    transform_out(sort, op, s, r, out);
    Ok(z)
}

// The two faces of the interval s: where it is zero, and where it is one.
pub fn boundary(s: &[u8], zero: &mut [u8], one: &mut [u8]) -> Result<Size, Refusal>
    ensures { AnsweredBoth (boundaried lo s.now) (boundaried hi s.now) zero.old one.old result zero.new one.new }
{
    let z = boundary_size(s)?;
    if zero.len() < z.len || one.len() < z.len {
        return Err(Refusal::ShortOutput);
    }
    passes::side(s, 0, zero);
    passes::side(s, 1, one);
    Ok(z)
}
