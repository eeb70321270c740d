// The judgements that all dimensions of a formula are below d: interval and face, once over the sort.
#![tactic(auto)]

ghost use Rattle.std.specs.Prelude.{◌≡◌, [], ◌∷◌, ◌++◌, ◌≤◌, ◌<◌, length, get_or, IfOk};
ghost use Rattle.formula.specs.Formula.{dim};
ghost use Rattle.formula.specs.Bytes.{dim_bytes};
ghost use Rattle.calculus.specs.Calls.{emit_interval};
ghost use Rattle.index.specs.Index.{Indexed};
ghost use Rattle.steps.specs.Running.{book, Emits};
ghost use Rattle.steps.specs.Producing.{RunsFor, WalksFor};
ghost use Rattle.formula.specs.Answers.{tree_of};
ghost use Rattle.steps.specs.Trees.{Known, Literal};
ghost use Rattle.steps.specs.Walking.{tree_at, KnownAt, behind_at, span, Spans, walk_ran};
ghost use Rattle.bounded_steps.specs.Programs.{bounded_kind, emit_bounded};

use formula::{Advance, Place, Sort};
use steps::{Order, Producer, Ran, Stop, Walked};

// The kind of the rule for a dimension as an interval.
const DIMENSION: usize = 7;

// The byte that a dimension begins with.
const DIMENSION_BYTE: u8 = 18;

// The kind of the rule for a formula that begins with this byte.
fn bounded_kind(sort: Sort, b: u8) -> usize
    ensures { result ≡ bounded_kind sort b }
{
    let n = usize::from(b);
    match sort {
        Sort::Faces => n + 11,
        Sort::Intervals => n.saturating_sub(11),
    }
}

// The step of the whole formula, from those of its parts.
fn bounded_whole(
    l: &mut [u8],
    ix: &mut [u32],
    sort: Sort,
    d: usize,
    f: &[u8],
    i: usize,
    k: usize,
) -> Ran
    requires { Indexed l.old ix.old × (0 < length f.now) × (length f.now ≤ 1022) × (d ≤ 255) }
    ensures { Emits (book l.old ix.old) (bounded_kind sort (get_or f.now 0 0)) (i ∷ k ∷ 0 ∷ []) (dim_bytes d ++ f.now) result (book l.new ix.new) }
{
    let kind = bounded_kind(sort, f[0]);
    steps::emit(l, ix, kind, [i, k, 0], &[&steps::number(d), f])
}

// The steps of a dimension as an interval.
fn dimension(p: &mut Producer, d: usize, n: usize) -> Ran
    requires { (d ≤ 255) × (n < 255) }
    ensures { RunsFor p.old (emit_interval d (dim n)) result p.new }
{
    let i = steps::comparison(p, Order::Less, n, d)?;
    let node = steps::literal(DIMENSION_BYTE, n);
    steps::emit(
        p.ledger,
        p.index,
        DIMENSION,
        [i, 0, 0],
        &[&steps::number(d), &node],
    )
}

// The steps of a literal on n: of its dimension, and in a face its own.
fn bounded_literal(p: &mut Producer, sort: Sort, d: usize, n: usize, f: &[u8]) -> Ran
    requires { Known sort f.now × (d ≤ 255) × Literal sort n f.now }
    ensures { RunsFor p.old (emit_bounded sort d (tree_of sort f.now)) result p.new }
{
    let i = dimension(p, d, n)?;
    match sort {
        Sort::Faces => bounded_whole(p.ledger, p.index, Sort::Faces, d, f, i, 0),
        Sort::Intervals => Ok(i),
    }
}

// The step of the formula between `at` and `end`, from those of its parts.
fn bounded_end(
    l: &mut [u8],
    ix: &mut [u32],
    sort: Sort,
    d: usize,
    f: &[u8],
    at: usize,
    end: Place,
    i: usize,
    k: usize,
) -> Result<Walked, Stop>
    requires { Indexed l.old ix.old × Spans f.now at end × (d ≤ 255) }
    ensures { Emits (book l.old ix.old) (bounded_kind sort (get_or (span at end f.now) 0 0)) (i ∷ k ∷ 0 ∷ []) (dim_bytes d ++ span at end f.now) (walk_ran result) (book l.new ix.new) × IfOk result (λ w. w.place ≡ end) }
{
    let x = steps::between(f, at, end);
    let step = bounded_whole(l, ix, sort, d, x, i, k)?;
    Ok(Walked { step, place: end })
}

// The steps of the formula at `here` and of its parts; 8 at the first dimension that is not below d.
fn bounded_at(p: &mut Producer, sort: Sort, d: usize, f: &[u8], here: Place) -> Result<Walked, Stop>
    requires { KnownAt sort f.now here × (d ≤ 255) }
    ensures { WalksFor p.old (emit_bounded sort d (tree_at sort f.now here)) (behind_at sort f.now here) result p.new }
{
    let at = here.at;
    match here.step(sort, f) {
        Advance::Leaf(q) => bounded_end(p.ledger, p.index, sort, d, f, at, q, 0, 0),
        Advance::Lit(q, n) => {
            let step = bounded_literal(p, sort, d, n, steps::between(f, at, q))?;
            Ok(Walked { step, place: q })
        }
        Advance::One(q) => {
            let a = bounded_at(p, sort, d, f, q)?;
            bounded_end(p.ledger, p.index, sort, d, f, at, a.place, a.step, 0)
        }
        Advance::Two(q) => {
            let a = bounded_at(p, sort, d, f, q)?;
            let b = bounded_at(p, sort, d, f, a.place)?;
            bounded_end(p.ledger, p.index, sort, d, f, at, b.place, a.step, b.step)
        }
        Advance::Stuck => Err(Stop::Full),
    }
}

// The steps of a formula and its parts; 8 at the first dimension that is not below d.
pub fn bounded(p: &mut Producer, sort: Sort, d: usize, f: &[u8]) -> Ran
    requires { Known sort f.now × (d ≤ 255) }
    ensures { RunsFor p.old (emit_bounded sort d (tree_of sort f.now)) result p.new }
{
    let start = Place { at: 0, pending: 1 };
    let w = bounded_at(p, sort, d, f, start)?;
    Ok(w.step)
}
