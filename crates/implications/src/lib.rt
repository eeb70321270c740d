// Implications: a face that entails another, and an interval that is an end wherever a face holds.
#![tactic(auto)]

ghost use Rattle.std.specs.Prelude.{◌≡◌, ◌++◌, ◌≤◌, length};
ghost use Rattle.formula.specs.declared.Sort.TheVariants.{Faces, Intervals};
ghost use Rattle.formula.specs.Formula.{i0, i1};
ghost use Rattle.formula.specs.Bytes.{dim_bytes, encode};
ghost use Rattle.calculus.specs.Calls.{side, emit_entails, emit_endpoint};
ghost use Rattle.calculus.specs.Door.{end_of};
ghost use Rattle.index.specs.Index.{Indexed};
ghost use Rattle.steps.specs.Running.{book, Emits};
ghost use Rattle.steps.specs.Producing.{RunsFor};
ghost use Rattle.formula.specs.Answers.{tree_of};
ghost use Rattle.steps.specs.Trees.{Known};
ghost use Rattle.boundary_steps.specs.Programs.{Sides};

use contexts::Context;
use formula::Sort;
use steps::{Producer, Ran};

// The kinds of the rules entails.checked, local.0 and local.1.
const CHECKED: usize = 30;

const AT_ZERO: usize = 37;

const AT_ONE: usize = 38;

// The steps that a entails b over d: both faces, then the search with a alone.
pub fn entails(p: &mut Producer, d: usize, a: &[u8], b: &[u8]) -> Ran
    requires { (d ≤ 255) × Known Faces a.now × Known Faces b.now }
    ensures { RunsFor p.old (emit_entails d (tree_of Faces a.now) (tree_of Faces b.now)) result p.new }
{
    let i = bounded_steps::bounded(p, Sort::Faces, d, a)?;
    let j = bounded_steps::bounded(p, Sort::Faces, d, b)?;
    let alone = Context { count: 1, faces: a };
    let k = search::cover(p, alone, b)?;
    steps::emit(
        p.ledger,
        p.index,
        CHECKED,
        [i, j, k],
        &[&steps::number(d), a, b],
    )
}

// The kind of the rule for an end.
fn end_kind(hi: bool) -> usize
    ensures { result ≡ side (end_of hi) 37 38 }
{
    if hi {
        return AT_ONE;
    }
    AT_ZERO
}

// The bytes of an end.
fn end_bytes(hi: bool) -> [u8; 1]
    ensures { result ≡ encode Intervals (side (end_of hi) i0 i1) }
{
    if hi {
        return [17];
    }
    [16]
}

// Of the faces of both ends, that of this one.
fn face_at<'a>(zero: &'a [u8], one: &'a [u8], hi: bool) -> &'a [u8]
    ensures { result.now ≡ side (end_of hi) zero.now one.now }
{
    if hi {
        return one;
    }
    zero
}

// The step that r is this end wherever phi holds, from three steps.
fn local(
    l: &mut [u8],
    ix: &mut [u32],
    d: usize,
    phi: &[u8],
    r: &[u8],
    hi: bool,
    references: [usize; 3],
) -> Ran
    requires { Indexed l.old ix.old × (d ≤ 255) × (length phi.now ≤ 1022) × (length r.now ≤ 1022) }
    ensures { Emits (book l.old ix.old) (side (end_of hi) 37 38) references (dim_bytes d ++ (phi.now ++ (r.now ++ encode Intervals (side (end_of hi) i0 i1)))) result (book l.new ix.new) }
{
    let kind = end_kind(hi);
    let end = end_bytes(hi);
    steps::emit(l, ix, kind, references, &[&steps::number(d), phi, r, &end])
}

// The steps that r is an end wherever phi holds: the one end where hi, else the zero end; zero and one are the bytes of its faces.
pub fn endpoint(
    p: &mut Producer,
    d: usize,
    phi: &[u8],
    r: &[u8],
    zero: &[u8],
    one: &[u8],
    hi: bool,
) -> Ran
    requires { (d ≤ 255) × Known Faces phi.now × Known Intervals r.now × Sides r.now zero.now one.now }
    ensures { RunsFor p.old (emit_endpoint d (tree_of Faces phi.now) (tree_of Intervals r.now) (end_of hi)) result p.new }
{
    let i = bounded_steps::bounded(p, Sort::Intervals, d, r)?;
    let j = boundary_steps::boundary(p, r, zero, one)?;
    let k = entails(p, d, phi, face_at(zero, one, hi))?;
    local(p.ledger, p.index, d, phi, r, hi, [i, j, k])
}
