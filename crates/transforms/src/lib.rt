// The judgements of a transformed formula, beside the bytes of the result.
#![tactic(auto)]

ghost use Rattle.std.specs.Prelude.{◌≡◌, [], ◌∷◌, ◌+◌, ◌≤◌, ◌<◌, length, get_or, take, IfOk};
ghost use Rattle.formula.specs.Operations.{shift, subst};
ghost use Rattle.formula.specs.Bytes.{encode};
ghost use Rattle.calculus.specs.Calls.{transform as transform_of, emit_boundary, emit_intervals, emit_faces, emit_transform};
ghost use Rattle.index.specs.Index.{Indexed};
ghost use Rattle.steps.specs.Running.{book, Emits};
ghost use Rattle.steps.specs.Producing.{RunsFor, WalksBothFor};
ghost use Rattle.steps.specs.Trees.{Is, Known, Literal};
ghost use Rattle.formula.specs.Answers.{part_at, tree_of};
ghost use Rattle.steps.specs.Walking.{StandsAt, tree_at, KnownAt, behind_at, span, Spans, pair_ran};
ghost use Rattle.transforms.specs.Transforms.{op_of, KnownOp, transform_bytes, first_kind, kind_gap, transform_kind};

use formula::{Advance, Place, Sort};
use operations::Op;
use steps::{Order, Paired, Producer, Ran, Stop};

// The byte that a dimension begins with.
const DIMENSION_BYTE: u8 = 18;

// The first rule of a dimension: it is below the operation's place.
const BELOW: usize = 0;

// The second of a shift: it is at the place or above it.
const SHIFTED: usize = 1;

// The second of a substitution: it is at the place.
const HIT: usize = 1;

// The third of a substitution: it is above the place.
const ABOVE: usize = 2;

// Where the kinds of the rules begin.
fn first_kind(sort: Sort, op: Op) -> usize
    ensures { (result ≡ first_kind sort op) × (result ≤ 70) }
{
    match sort {
        Sort::Faces => match op {
            Op::DShift(_) => 64,
            Op::DSubst(_) => 70,
        },
        Sort::Intervals => match op {
            Op::DShift(_) => 33,
            Op::DSubst(_) => 40,
        },
    }
}

// How many more rules a dimension has than one.
fn kind_gap(op: Op) -> usize
    ensures { (result ≡ kind_gap op) × (result ≤ 2) }
{
    match op {
        Op::DShift(_) => 1,
        Op::DSubst(_) => 2,
    }
}

// The kind of the rule `more` after the first for a formula that begins with this byte.
fn transform_kind(sort: Sort, op: Op, b: u8, more: usize) -> usize
    requires { more ≤ 2 }
    ensures { result ≡ transform_kind sort op b + more }
{
    let n = usize::from(b);
    let first = first_kind(sort, op);
    if n < 19 {
        return n + first + more;
    }
    n + first + kind_gap(op) + more
}

// The step of the whole formula by the rule `more` after the first, from those of its parts.
fn transform_whole<'a>(
    l: &mut [u8],
    ix: &mut [u32],
    sort: Sort,
    op: Op,
    f: &'a [u8],
    t: &'a [u8],
    out: &'a [u8],
    more: usize,
    i: usize,
    j: usize,
) -> Ran
    requires { Indexed l.old ix.old × (0 < length f.now) × (length f.now ≤ 1022) × (length out.now ≤ 1022) × KnownOp op t.now × (more ≤ 2) }
    ensures { Emits (book l.old ix.old) (transform_kind sort op (get_or f.now 0 0) + more) (i ∷ j ∷ 0 ∷ []) (transform_bytes op f.now t.now out.now) result (book l.new ix.new) }
{
    let kind = transform_kind(sort, op, f[0], more);
    match op {
        Op::DShift(k) => steps::emit(l, ix, kind, [i, j, 0], &[f, &steps::number(k), out]),
        Op::DSubst(k) => steps::emit(l, ix, kind, [i, j, 0], &[f, &steps::number(k), t, out]),
    }
}

// The step of a dimension by the rule `more` after the first, from that of its comparison.
fn dimension_whole(
    l: &mut [u8],
    ix: &mut [u32],
    op: Op,
    f: &[u8],
    t: &[u8],
    out: &[u8],
    more: usize,
    i: usize,
) -> Ran
    requires { Indexed l.old ix.old × (0 < length f.now) × (length f.now ≤ 1022) × (length out.now ≤ 1022) × KnownOp op t.now × (more ≤ 2) }
    ensures { Emits (book l.old ix.old) (transform_kind Sort.Intervals op (get_or f.now 0 0) + more) (i ∷ 0 ∷ 0 ∷ []) (transform_bytes op f.now t.now out.now) result (book l.new ix.new) }
{
    transform_whole(l, ix, Sort::Intervals, op, f, t, out, more, i, 0)
}

// The steps of a shifted dimension n: its comparison with k, and its own.
fn shift_dimension(p: &mut Producer, k: usize, n: usize, f: &[u8], out: &[u8]) -> Ran
    requires { Known Sort.Intervals f.now × (k < 255) × Literal Sort.Intervals n f.now × Is Sort.Intervals (transform_of Sort.Intervals (shift k) (tree_of Sort.Intervals f.now)) out.now }
    ensures { RunsFor p.old (emit_intervals (shift k) (tree_of Sort.Intervals f.now)) result p.new }
{
    let op = Op::DShift(k);
    if n < k {
        let i = steps::comparison(p, Order::Less, n, k)?;
        return dimension_whole(p.ledger, p.index, op, f, f, out, BELOW, i);
    }
    let i = steps::comparison(p, Order::AtMost, k, n)?;
    dimension_whole(p.ledger, p.index, op, f, f, out, SHIFTED, i)
}

// The steps of a dimension n where t is substituted at k: a comparison where they differ, and its own.
fn subst_dimension(p: &mut Producer, k: usize, n: usize, f: &[u8], t: &[u8], out: &[u8]) -> Ran
    requires { Known Sort.Intervals f.now × ((k < 255) × Known Sort.Intervals t.now) × Literal Sort.Intervals n f.now × Is Sort.Intervals (transform_of Sort.Intervals (subst k (tree_of Sort.Intervals t.now)) (tree_of Sort.Intervals f.now)) out.now }
    ensures { RunsFor p.old (emit_intervals (subst k (tree_of Sort.Intervals t.now)) (tree_of Sort.Intervals f.now)) result p.new }
{
    let op = Op::DSubst(k);
    if n == k {
        return dimension_whole(p.ledger, p.index, op, f, t, out, HIT, 0);
    }
    if n < k {
        let i = steps::comparison(p, Order::Less, n, k)?;
        return dimension_whole(p.ledger, p.index, op, f, t, out, BELOW, i);
    }
    let i = steps::comparison(p, Order::Less, k, n)?;
    dimension_whole(p.ledger, p.index, op, f, t, out, ABOVE, i)
}

// The steps of a dimension n, by the operation.
fn transform_dimension(p: &mut Producer, op: Op, n: usize, f: &[u8], t: &[u8], out: &[u8]) -> Ran
    requires { Known Sort.Intervals f.now × KnownOp op t.now × Literal Sort.Intervals n f.now × Is Sort.Intervals (transform_of Sort.Intervals (op_of op t.now) (tree_of Sort.Intervals f.now)) out.now }
    ensures { RunsFor p.old (emit_intervals (op_of op t.now) (tree_of Sort.Intervals f.now)) result p.new }
{
    match op {
        Op::DShift(k) => shift_dimension(p, k, n, f, out),
        Op::DSubst(k) => subst_dimension(p, k, n, f, t, out),
    }
}

// What an interval becomes, into the front of out; answers its length. It keeps the limits, so there is always a result.
fn image(op: Op, r: &[u8], t: &[u8], out: &mut [u8]) -> usize
    requires { Known Sort.Intervals r.now × KnownOp op t.now × Is Sort.Intervals (transform_of Sort.Intervals (op_of op t.now) (tree_of Sort.Intervals r.now)) (encode Sort.Intervals (transform_of Sort.Intervals (op_of op t.now) (tree_of Sort.Intervals r.now))) × (1022 ≤ length out.old) }
    ensures { (result ≤ length out.new) × Is Sort.Intervals (transform_of Sort.Intervals (op_of op t.now) (tree_of Sort.Intervals r.now)) (take result out.new) }
{
    match operations::transform(Sort::Intervals, op, r, t, out) {
        Ok(z) => z.len,
        Err(_) => 0,
    }
}

// The steps of an interval's boundary, whose two faces are made here. They keep the limits, so there is always a result.
fn boundary_steps(p: &mut Producer, r: &[u8]) -> Ran
    requires { Known Sort.Intervals r.now }
    ensures { RunsFor p.old (emit_boundary (tree_of Sort.Intervals r.now)) result p.new }
{
    let mut zero = [0u8; 1024];
    let mut one = [0u8; 1024];
    match operations::boundary(r, &mut zero, &mut one) {
        Ok(z) => {
            let m = z.len;
            let a = &zero[..m];
            let b = &one[..m];
            boundary_steps::boundary(p, r, a, b)
        }
        Err(_) => Err(Stop::Full),
    }
}

// The steps of a face literal on n: of its dimension, in a substitution of the boundary of what that becomes, and its own.
fn face_literal(p: &mut Producer, op: Op, n: usize, f: &[u8], t: &[u8], out: &[u8]) -> Ran
    requires { Known Sort.Faces f.now × KnownOp op t.now × Literal Sort.Faces n f.now × Is Sort.Faces (transform_of Sort.Faces (op_of op t.now) (tree_of Sort.Faces f.now)) out.now }
    ensures { RunsFor p.old (emit_faces (op_of op t.now) (tree_of Sort.Faces f.now)) result p.new }
{
    let node = steps::literal(DIMENSION_BYTE, n);
    let mut became = [0u8; 1024];
    let m = image(op, &node, t, &mut became);
    let i = transform_dimension(p, op, n, &node, t, &became[..m])?;
    match op {
        Op::DShift(_) => transform_whole(p.ledger, p.index, Sort::Faces, op, f, t, out, 0, i, 0),
        Op::DSubst(_) => {
            let j = boundary_steps(p, &became[..m])?;
            transform_whole(p.ledger, p.index, Sort::Faces, op, f, t, out, 0, i, j)
        }
    }
}

// The steps of a literal on n, by the sort. Apart from the recursion, whose frames then hold no buffers.
fn transform_literal(
    p: &mut Producer,
    sort: Sort,
    op: Op,
    n: usize,
    f: &[u8],
    t: &[u8],
    out: &[u8],
) -> Ran
    requires { Known sort f.now × KnownOp op t.now × Literal sort n f.now × Is sort (transform_of sort (op_of op t.now) (tree_of sort f.now)) out.now }
    ensures { RunsFor p.old (emit_transform sort (op_of op t.now) (tree_of sort f.now)) result p.new }
{
    match sort {
        Sort::Faces => face_literal(p, op, n, f, t, out),
        Sort::Intervals => transform_dimension(p, op, n, f, t, out),
    }
}

// The step of the formula between `at` and `end`, whose result stands between `from` and `last`, from those of its parts.
fn transform_end(
    l: &mut [u8],
    ix: &mut [u32],
    sort: Sort,
    op: Op,
    f: &[u8],
    at: usize,
    end: Place,
    t: &[u8],
    out: &[u8],
    from: usize,
    last: Place,
    i: usize,
    j: usize,
) -> Result<Paired, Stop>
    requires { Indexed l.old ix.old × Spans f.now at end × KnownOp op t.now × Spans out.now from last }
    ensures { Emits (book l.old ix.old) (transform_kind sort op (get_or (span at end f.now) 0 0)) (i ∷ j ∷ 0 ∷ []) (transform_bytes op (span at end f.now) t.now (span from last out.now)) (pair_ran result) (book l.new ix.new) × IfOk result (λ w. (w.place ≡ end) × (w.image ≡ last)) }
{
    let x = steps::between(f, at, end);
    let y = steps::between(out, from, last);
    let step = transform_whole(l, ix, sort, op, x, t, y, 0, i, j)?;
    Ok(Paired {
        step,
        place: end,
        image: last,
    })
}

// The steps of the literal on n between the place `here` and `end`, beside its result at q.
fn transform_lit(
    p: &mut Producer,
    sort: Sort,
    op: Op,
    n: usize,
    f: &[u8],
    here: Place,
    end: Place,
    t: &[u8],
    out: &[u8],
    q: Place,
) -> Result<Paired, Stop>
    requires { KnownAt sort f.now here × KnownOp op t.now × StandsAt sort (transform_of sort (op_of op t.now) (tree_at sort f.now here)) out.now q × Literal sort n (part_at sort f.now here.at) × (end ≡ behind_at sort f.now here) }
    ensures { WalksBothFor p.old (emit_transform sort (op_of op t.now) (tree_at sort f.now here)) (behind_at sort f.now here) (behind_at sort out.now q) result p.new }
{
    let at = here.at;
    let from = q.at;
    let w = steps::over(sort, out, q);
    let x = steps::between(f, at, end);
    let y = steps::between(out, from, w);
    let step = transform_literal(p, sort, op, n, x, t, y)?;
    Ok(Paired {
        step,
        place: end,
        image: w,
    })
}

// The steps of the formula at `here` and of its parts, beside the result at q.
fn transform_at(
    p: &mut Producer,
    sort: Sort,
    op: Op,
    f: &[u8],
    here: Place,
    t: &[u8],
    out: &[u8],
    q: Place,
) -> Result<Paired, Stop>
    requires { KnownAt sort f.now here × KnownOp op t.now × StandsAt sort (transform_of sort (op_of op t.now) (tree_at sort f.now here)) out.now q }
    ensures { WalksBothFor p.old (emit_transform sort (op_of op t.now) (tree_at sort f.now here)) (behind_at sort f.now here) (behind_at sort out.now q) result p.new }
{
    let at = here.at;
    let from = q.at;
    match here.step(sort, f) {
        Advance::Leaf(e) => {
            let w = steps::over(sort, out, q);
            transform_end(p.ledger, p.index, sort, op, f, at, e, t, out, from, w, 0, 0)
        }
        Advance::Lit(e, n) => transform_lit(p, sort, op, n, f, here, e, t, out, q),
        Advance::One(e) => {
            let a = transform_at(p, sort, op, f, e, t, out, steps::below(out, q))?;
            transform_end(
                p.ledger, p.index, sort, op, f, at, a.place, t, out, from, a.image, a.step, 0,
            )
        }
        Advance::Two(e) => {
            let a = transform_at(p, sort, op, f, e, t, out, steps::inside(out, q))?;
            let b = transform_at(p, sort, op, f, a.place, t, out, a.image)?;
            transform_end(
                p.ledger, p.index, sort, op, f, at, b.place, t, out, from, b.image, a.step, b.step,
            )
        }
        Advance::Stuck => Err(Stop::Full),
    }
}

// The steps of a formula and its parts.
pub fn transform(p: &mut Producer, sort: Sort, op: Op, f: &[u8], t: &[u8], out: &[u8]) -> Ran
    requires { Known sort f.now × KnownOp op t.now × Is sort (transform_of sort (op_of op t.now) (tree_of sort f.now)) out.now }
    ensures { RunsFor p.old (emit_transform sort (op_of op t.now) (tree_of sort f.now)) result p.new }
{
    let start = Place { at: 0, pending: 1 };
    let r = transform_at(p, sort, op, f, start, t, out, start)?;
    Ok(r.step)
}
