// The boundary judgements of an interval expression, beside the bytes of its two faces.
#![tactic(auto)]

ghost use Rattle.std.specs.Prelude.{◌≡◌, [], ◌∷◌, ◌++◌, ◌+◌, ◌≤◌, ◌<◌, length, get_or, IfOk};
ghost use Rattle.calculus.specs.Calls.{emit_boundary};
ghost use Rattle.index.specs.Index.{Indexed};
ghost use Rattle.steps.specs.Running.{book, Emits};
ghost use Rattle.steps.specs.Producing.{RunsFor, WalksBothFor};
ghost use Rattle.formula.specs.Answers.{tree_of};
ghost use Rattle.steps.specs.Trees.{Known};
ghost use Rattle.steps.specs.Walking.{tree_at, KnownAt, behind_at, span, Spans, pair_ran};
ghost use Rattle.boundary_steps.specs.Programs.{Sides, SidesAt, boundary_kind};

use formula::{Advance, Place, Sort};
use steps::{Paired, Producer, Ran, Stop};

// The kind of the rule for an expression that begins with this byte.
fn boundary_kind(b: u8) -> usize
    ensures { result ≡ boundary_kind b }
{
    usize::from(b) + 15
}

// The step of the whole expression, from those of its parts.
fn boundary_whole(
    l: &mut [u8],
    ix: &mut [u32],
    r: &[u8],
    zero: &[u8],
    one: &[u8],
    i: usize,
    k: usize,
) -> Ran
    requires { Indexed l.old ix.old × (0 < length r.now) × (length r.now ≤ 1022) × (length zero.now ≤ 1022) × (length one.now ≤ 1022) }
    ensures { Emits (book l.old ix.old) (boundary_kind (get_or r.now 0 0)) (i ∷ k ∷ 0 ∷ []) (r.now ++ (zero.now ++ one.now)) result (book l.new ix.new) }
{
    let kind = boundary_kind(r[0]);
    steps::emit(l, ix, kind, [i, k, 0], &[r, zero, one])
}

// The step of the expression between `at` and `end`, whose faces stand between `from` and `last`, from those of its parts.
fn boundary_end(
    l: &mut [u8],
    ix: &mut [u32],
    r: &[u8],
    at: usize,
    end: Place,
    zero: &[u8],
    one: &[u8],
    from: usize,
    last: Place,
    i: usize,
    k: usize,
) -> Result<Paired, Stop>
    requires { Indexed l.old ix.old × Spans r.now at end × Spans zero.now from last × Spans one.now from last }
    ensures { Emits (book l.old ix.old) (boundary_kind (get_or (span at end r.now) 0 0)) (i ∷ k ∷ 0 ∷ []) (span at end r.now ++ (span from last zero.now ++ span from last one.now)) (pair_ran result) (book l.new ix.new) × IfOk result (λ w. (w.place ≡ end) × (w.image ≡ last)) }
{
    let a = steps::between(r, at, end);
    let z = steps::between(zero, from, last);
    let o = steps::between(one, from, last);
    let step = boundary_whole(l, ix, a, z, o, i, k)?;
    Ok(Paired {
        step,
        place: end,
        image: last,
    })
}

// The steps of the expression at `here` and of its parts, beside the two faces at q, which are of one length; under neg they change places.
fn boundary_at(
    p: &mut Producer,
    r: &[u8],
    here: Place,
    zero: &[u8],
    one: &[u8],
    q: Place,
) -> Result<Paired, Stop>
    requires { KnownAt Sort.Intervals r.now here × SidesAt (tree_at Sort.Intervals r.now here) zero.now one.now q }
    ensures { WalksBothFor p.old (emit_boundary (tree_at Sort.Intervals r.now here)) (behind_at Sort.Intervals r.now here) (behind_at Sort.Faces zero.now q) result p.new }
{
    let at = here.at;
    let from = q.at;
    match here.step(Sort::Intervals, r) {
        Advance::Leaf(e) => {
            let w = steps::over(Sort::Faces, zero, q);
            boundary_end(p.ledger, p.index, r, at, e, zero, one, from, w, 0, 0)
        }
        Advance::Lit(e, _) => {
            let w = steps::over(Sort::Faces, zero, q);
            boundary_end(p.ledger, p.index, r, at, e, zero, one, from, w, 0, 0)
        }
        Advance::One(e) => {
            let a = boundary_at(p, r, e, one, zero, q)?;
            boundary_end(
                p.ledger, p.index, r, at, a.place, zero, one, from, a.image, a.step, 0,
            )
        }
        Advance::Two(e) => {
            let a = boundary_at(p, r, e, zero, one, steps::inside(zero, q))?;
            let b = boundary_at(p, r, a.place, zero, one, a.image)?;
            boundary_end(
                p.ledger, p.index, r, at, b.place, zero, one, from, b.image, a.step, b.step,
            )
        }
        Advance::Stuck => Err(Stop::Full),
    }
}

// The steps of an expression and its parts.
pub fn boundary(p: &mut Producer, r: &[u8], zero: &[u8], one: &[u8]) -> Ran
    requires { Known Sort.Intervals r.now × Sides r.now zero.now one.now }
    ensures { RunsFor p.old (emit_boundary (tree_of Sort.Intervals r.now)) result p.new }
{
    let start = Place { at: 0, pending: 1 };
    let x = boundary_at(p, r, start, zero, one, start)?;
    Ok(x.step)
}
