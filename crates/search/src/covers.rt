// The search: the next turn, and the search for what it leaves to show.
ghost use Rattle.std.specs.Prelude.{◌≡◌, [], ◌++◌, ◌≤◌, ◌<◌, length};
ghost use Rattle.formula.specs.declared.Sort.TheVariants.{Faces};
ghost use Rattle.formula.specs.Formula.{fand, for};
ghost use Rattle.calculus.specs.Search.{try_right};
ghost use Rattle.calculus.specs.Calls.{emit_move, emit_cover};
ghost use Rattle.ledger.specs.Ledger.{steps_of};
ghost use Rattle.index.specs.Index.{Indexed, Finished};
ghost use Rattle.formula.specs.Answers.{tree_of};
ghost use Rattle.steps.specs.Trees.{Known};
ghost use Rattle.steps.specs.Producing.{RunsFor};
ghost use Rattle.contexts.specs.Contexts.{context_of, Sound, cut};
ghost use Rattle.contexts.specs.Faces.{faces_of};
ghost use Rattle.contexts.specs.Moves.{split_at, Settled};
ghost use Rattle.search.specs.Turns.{Parts, Split, full_by};

use crate::turns;
use crate::turns::Turn;
use contexts::Context;
use formula::Sort;
use steps::{Producer, Ran, Stop};

// The kinds of the rules cover.hit, cover.and-left, cover.or-left, cover.and-right, cover.or-right0 and cover.or-right1.
const HIT: usize = 22;

const AND_LEFT: usize = 25;

const OR_LEFT: usize = 26;

const AND_RIGHT: usize = 27;

const OR_RIGHT_0: usize = 28;

const OR_RIGHT_1: usize = 29;

// Whether a run stopped since it was out of room.
fn is_full(e: Stop) -> bool
    ensures { result ≡ full_by e }
{
    match e {
        Stop::NotBelow => false,
        Stop::NotImplied => false,
        Stop::Full => true,
    }
}

// The lowest step with this cover judgement, where its search is finished. Ledger and index are only read.
fn finished(p: &Producer, g: Context, goal: &[u8]) -> Result<usize, usize>
    requires { Known Faces goal.now }
    ensures { Settled (steps_of p.now.ledger.now) (faces_of g.entry) (tree_of Faces goal.now) result }
{
    contexts::finished(p.ledger, p.index, g, goal)
}

// Marks the search of step i as finished. The ledger is only read.
fn mark(l: &mut [u8], ix: &mut [u32], i: usize)
    requires { Indexed l.old ix.old × (i < length (steps_of l.old)) × Finished (steps_of l.old) i }
    ensures { Indexed l.old ix.new × (l.new ≡ l.old) }
{
    index::finish(l, ix, i);
}

// The cover step of a context and a goal, or 9, where the search is not finished yet; then it is marked as finished.
#[cycle(search)]
fn fresh(p: &mut Producer, g: Context, goal: &[u8]) -> Ran
    requires { Known Faces goal.now }
    ensures { RunsFor p.old (emit_cover (faces_of g.entry) (tree_of Faces goal.now)) result p.new }
{
    let i = take_turn(p, g, goal)?;
    mark(p.ledger, p.index, i);
    Ok(i)
}

// The cover step of a context and a goal, or 9. A search that this call has finished is not made again: it would append nothing and answer the same.
#[cycle(search)]
pub fn cover(p: &mut Producer, g: Context, goal: &[u8]) -> Ran
    requires { Known Faces goal.now }
    ensures { RunsFor p.old (emit_cover (faces_of g.entry) (tree_of Faces goal.now)) result p.new }
{
    match finished(p, g, goal) {
        Ok(i) => Ok(i),
        Err(_) => fresh(p, g, goal),
    }
}

// The cover step of a context and a goal, or 9, by the next turn.
#[cycle(search)]
fn take_turn(p: &mut Producer, g: Context, goal: &[u8]) -> Ran
    requires { Known Faces goal.now }
    ensures { RunsFor p.old (emit_cover (faces_of g.entry) (tree_of Faces goal.now)) result p.new }
{
    match turns::next_turn(g, goal) {
        Turn::Top => contexts::by_top(p, g, goal),
        Turn::Hit => contexts::by_member(p, HIT, goal, g, goal),
        Turn::Absurd => contexts::by_absurd(p, g, goal),
        Turn::Opposed(k) => contexts::by_clash(p, k, g, goal),
        Turn::AndLeft(i, at) => and_left(p, i, at, g, goal),
        Turn::OrLeft(i, at) => or_left(p, i, at, g, goal),
        Turn::AndRight => and_right(p, g, goal),
        Turn::OrRight => or_right(p, g, goal),
        Turn::Stuck => Err(Stop::NotImplied),
    }
}

// The search in the context of m faces that are front, and behind it those of g without its bytes from `at` up to `end`. Only here is a context made.
// It asks for a finished search itself, as `cover` does: where only one place asked, Rattle's own compiler would put the array of the asking
// into each level of the search.
#[cycle(search)]
fn branch(
    p: &mut Producer,
    front: &[u8],
    m: usize,
    g: Context,
    at: usize,
    end: usize,
    goal: &[u8],
) -> Ran
    requires { (at ≤ end) × (end ≤ length g.faces.now) × Sound m (front.now ++ cut at end g.faces.now) × Known Faces goal.now }
    ensures { RunsFor p.old (emit_cover (context_of m (front.now ++ cut at end g.entry.faces.now)) (tree_of Faces goal.now)) result p.new }
{
    let mut made = [0u8; 1024];
    let k = contexts::leave(front, g.faces, at, end, &mut made);
    let context = Context {
        count: m,
        faces: &made[..k],
    };
    match finished(p, context, goal) {
        Ok(i) => Ok(i),
        Err(_) => fresh(p, context, goal),
    }
}

// The assumption number i, which begins at `at`, is a fand: both parts in its place.
#[cycle(search)]
fn and_left(p: &mut Producer, i: usize, at: usize, g: Context, goal: &[u8]) -> Ran
    requires { Known Faces goal.now × Split fand (faces_of g) i at }
    ensures { RunsFor p.old (emit_move emit_cover (faces_of g.entry) (tree_of Faces goal.now) (split_at [] (faces_of g.entry) i)) result p.new }
{
    let x = formula::formula_at(Sort::Faces, g.faces, at);
    let t = contexts::left_out(p, i, x, at, g)?;
    let end = at + x.len();
    let j = branch(p, &x[1..], g.count + 1, g, at, end, goal)?;
    contexts::cover_step(p.ledger, p.index, AND_LEFT, [t, j, 0], g, goal)
}

// It is a for: one part in its place, then the other.
#[cycle(search)]
fn or_left(p: &mut Producer, i: usize, at: usize, g: Context, goal: &[u8]) -> Ran
    requires { Known Faces goal.now × Split for (faces_of g) i at }
    ensures { RunsFor p.old (emit_move emit_cover (faces_of g.entry) (tree_of Faces goal.now) (split_at [] (faces_of g.entry) i)) result p.new }
{
    let x = formula::formula_at(Sort::Faces, g.faces, at);
    let t = contexts::left_out(p, i, x, at, g)?;
    let end = at + x.len();
    let a = formula::formula_at(Sort::Faces, x, 1);
    let j = branch(p, a, g.count, g, at, end, goal)?;
    let m = 1 + a.len();
    let k = branch(p, &x[m..], g.count, g, at, end, goal)?;
    contexts::cover_step(p.ledger, p.index, OR_LEFT, [t, j, k], g, goal)
}

// The goal is a fand: both parts.
#[cycle(search)]
fn and_right(p: &mut Producer, g: Context, goal: &[u8]) -> Ran
    requires { Known Faces goal.now × Parts fand (tree_of Faces goal.now) }
    ensures { RunsFor p.old (emit_move emit_cover (faces_of g.entry) (tree_of Faces goal.now) (try_right (tree_of Faces goal.now))) result p.new }
{
    let a = formula::formula_at(Sort::Faces, goal, 1);
    let i = cover(p, g, a)?;
    let m = 1 + a.len();
    let j = cover(p, g, &goal[m..])?;
    contexts::cover_step(p.ledger, p.index, AND_RIGHT, [i, j, 0], g, goal)
}

// The goal is a for: one part, and where that fails the other; the steps of the failed try stay.
#[cycle(search)]
fn or_right(p: &mut Producer, g: Context, goal: &[u8]) -> Ran
    requires { Known Faces goal.now × Parts for (tree_of Faces goal.now) }
    ensures { RunsFor p.old (emit_move emit_cover (faces_of g.entry) (tree_of Faces goal.now) (try_right (tree_of Faces goal.now))) result p.new }
{
    let a = formula::formula_at(Sort::Faces, goal, 1);
    match cover(p, g, a) {
        Ok(i) => { contexts::cover_step(p.ledger, p.index, OR_RIGHT_0, [i, 0, 0], g, goal) }
        Err(e) if is_full(e) => Err(e),
        Err(_) => {
            let m = 1 + a.len();
            let i = cover(p, g, &goal[m..])?;
            contexts::cover_step(p.ledger, p.index, OR_RIGHT_1, [i, 0, 0], g, goal)
        }
    }
}
