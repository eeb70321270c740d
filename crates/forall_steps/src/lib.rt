// The forall judgements of a face, beside the bytes of the result.
#![tactic(auto)]

ghost use Rattle.std.specs.Prelude.{◌≡◌, [], ◌∷◌, ◌++◌, ◌+◌, ◌≤◌, ◌<◌, length, get_or, IfOk};
ghost use Rattle.formula.specs.Operations.{forall as forall_of};
ghost use Rattle.formula.specs.Bytes.{dim_bytes, encode};
ghost use Rattle.calculus.specs.Calls.{emit_forall};
ghost use Rattle.index.specs.Index.{Indexed};
ghost use Rattle.steps.specs.Running.{book, Emits};
ghost use Rattle.steps.specs.Producing.{RunsFor, WalksBothFor};
ghost use Rattle.formula.specs.Answers.{tree_of};
ghost use Rattle.steps.specs.Trees.{Known, Literal};
ghost use Rattle.steps.specs.Walking.{StandsAt, tree_at, KnownAt, behind_at, span, Spans, pair_ran};
ghost use Rattle.forall_steps.specs.Programs.{forall_kind};

use formula::{Advance, Place, Sort};
use steps::{Order, Paired, Producer, Ran, Stop};

// The first rule of a literal: it is on k.
const HIT: usize = 0;

// The second: it is below k.
const BELOW: usize = 1;

// The third: it is above k.
const ABOVE: usize = 2;

// The kind of the rule `more` after the first for a face that begins with this byte.
fn forall_kind(b: u8, more: usize) -> usize
    requires { more ≤ 2 }
    ensures { result ≡ forall_kind b + more }
{
    let n = usize::from(b);
    if n < 3 {
        return n + 39 + more;
    }
    if n == 3 {
        return 44 + more;
    }
    n + 43 + more
}

// The step of the whole face by the rule `more` after the first, from those of its parts.
fn forall_whole(
    l: &mut [u8],
    ix: &mut [u32],
    f: &[u8],
    k: usize,
    out: &[u8],
    more: usize,
    i: usize,
    j: usize,
) -> Ran
    requires { Indexed l.old ix.old × (0 < length f.now) × (length f.now ≤ 1022) × (length out.now ≤ 1022) × (k < 255) × (more ≤ 2) }
    ensures { Emits (book l.old ix.old) (forall_kind (get_or f.now 0 0) + more) (i ∷ j ∷ 0 ∷ []) (f.now ++ (dim_bytes k ++ out.now)) result (book l.new ix.new) }
{
    let kind = forall_kind(f[0], more);
    steps::emit(l, ix, kind, [i, j, 0], &[f, &steps::number(k), out])
}

// The steps of a literal on n: a comparison of n with k where they differ, and its own.
fn forall_literal(p: &mut Producer, f: &[u8], k: usize, n: usize, out: &[u8]) -> Ran
    requires { Known Sort.Faces f.now × (k < 255) × Literal Sort.Faces n f.now × (out.now ≡ encode Sort.Faces (forall_of k (tree_of Sort.Faces f.now))) }
    ensures { RunsFor p.old (emit_forall k (tree_of Sort.Faces f.now)) result p.new }
{
    if n == k {
        return forall_whole(p.ledger, p.index, f, k, out, HIT, 0, 0);
    }
    if n < k {
        let i = steps::comparison(p, Order::Less, n, k)?;
        return forall_whole(p.ledger, p.index, f, k, out, BELOW, i, 0);
    }
    let i = steps::comparison(p, Order::Less, k, n)?;
    forall_whole(p.ledger, p.index, f, k, out, ABOVE, i, 0)
}

// The step of the face between `at` and `end`, whose result stands between `from` and `last`, from those of its parts.
fn forall_end(
    l: &mut [u8],
    ix: &mut [u32],
    f: &[u8],
    at: usize,
    end: Place,
    k: usize,
    out: &[u8],
    from: usize,
    last: Place,
    i: usize,
    j: usize,
) -> Result<Paired, Stop>
    requires { Indexed l.old ix.old × Spans f.now at end × (k < 255) × Spans out.now from last }
    ensures { Emits (book l.old ix.old) (forall_kind (get_or (span at end f.now) 0 0)) (i ∷ j ∷ 0 ∷ []) (span at end f.now ++ (dim_bytes k ++ span from last out.now)) (pair_ran result) (book l.new ix.new) × IfOk result (λ w. (w.place ≡ end) × (w.image ≡ last)) }
{
    let x = steps::between(f, at, end);
    let y = steps::between(out, from, last);
    let step = forall_whole(l, ix, x, k, y, 0, i, j)?;
    Ok(Paired {
        step,
        place: end,
        image: last,
    })
}

// The steps of the face at `here` and of its parts, beside the result at q.
fn forall_at(
    p: &mut Producer,
    f: &[u8],
    here: Place,
    k: usize,
    out: &[u8],
    q: Place,
) -> Result<Paired, Stop>
    requires { KnownAt Sort.Faces f.now here × (k < 255) × StandsAt Sort.Faces (forall_of k (tree_at Sort.Faces f.now here)) out.now q }
    ensures { WalksBothFor p.old (emit_forall k (tree_at Sort.Faces f.now here)) (behind_at Sort.Faces f.now here) (behind_at Sort.Faces out.now q) result p.new }
{
    let at = here.at;
    let from = q.at;
    match here.step(Sort::Faces, f) {
        Advance::Leaf(e) => {
            let w = steps::over(Sort::Faces, out, q);
            forall_end(p.ledger, p.index, f, at, e, k, out, from, w, 0, 0)
        }
        Advance::Lit(e, n) => {
            let w = steps::over(Sort::Faces, out, q);
            let x = steps::between(f, at, e);
            let step = forall_literal(p, x, k, n, steps::between(out, from, w))?;
            Ok(Paired {
                step,
                place: e,
                image: w,
            })
        }
        Advance::Two(e) => {
            let a = forall_at(p, f, e, k, out, steps::inside(out, q))?;
            let b = forall_at(p, f, a.place, k, out, a.image)?;
            forall_end(
                p.ledger, p.index, f, at, b.place, k, out, from, b.image, a.step, b.step,
            )
        }
        Advance::One(_) => Err(Stop::Full),
        Advance::Stuck => Err(Stop::Full),
    }
}

// The steps of a face and its parts.
pub fn forall(p: &mut Producer, f: &[u8], k: usize, out: &[u8]) -> Ran
    requires { Known Sort.Faces f.now × (k < 255) × (out.now ≡ encode Sort.Faces (forall_of k (tree_of Sort.Faces f.now))) }
    ensures { RunsFor p.old (emit_forall k (tree_of Sort.Faces f.now)) result p.new }
{
    let start = Place { at: 0, pending: 1 };
    let r = forall_at(p, f, start, k, out, start)?;
    Ok(r.step)
}
