// Moves that leave nothing to search: the goal or ff is in the context, or two literals clash.
ghost use Rattle.std.specs.Prelude.{◌≡◌, [], ◌∷◌, ◌<◌};
ghost use Rattle.formula.specs.declared.Sort.TheVariants.{Faces};
ghost use Rattle.formula.specs.Formula.{ff, ft};
ghost use Rattle.calculus.specs.Judgement.{member, cover};
ghost use Rattle.calculus.specs.Rules.{Rule};
ghost use Rattle.calculus.specs.Record.{operand_bytes};
ghost use Rattle.calculus.specs.Emit.{emit};
ghost use Rattle.ledger.specs.Ledger.{steps_of};
ghost use Rattle.index.specs.Index.{Indexed};
ghost use Rattle.steps.specs.Running.{book, Emits};
ghost use Rattle.steps.specs.Producing.{RunsFor};
ghost use Rattle.formula.specs.Answers.{tree_of};
ghost use Rattle.steps.specs.Trees.{Known};
ghost use Rattle.contexts.specs.Faces.{faces_of};
ghost use Rattle.contexts.specs.Moves.{cover_by, cover_clash, Settled};

use crate::{Context, members};
use steps::{Producer, Ran};

// The kinds of the rules cover.top, cover.absurd and cover.clash.
const TOP: usize = 21;

const ABSURD: usize = 23;

const CLASH: usize = 24;

// Emits a cover step of this kind and these references.
pub fn cover_step(
    l: &mut [u8],
    ix: &mut [u32],
    kind: usize,
    references: [usize; 3],
    g: Context,
    goal: &[u8],
) -> Ran
    requires { Indexed l.old ix.old × Known Faces goal.now }
    ensures { Emits (book l.old ix.old) kind references (operand_bytes (cover (faces_of g.entry) (tree_of Faces goal.now))) result (book l.new ix.new) }
{
    steps::emit(l, ix, kind, references, &[&g.count_field(), g.faces, goal])
}

// The lowest step with this cover judgement, where its search is finished. LLVM leaves it a function of its own: within the search,
// its array would stand in each of up to 511 levels.
#[inline(never)]
pub fn finished(l: &[u8], ix: &[u32], g: Context, goal: &[u8]) -> Result<usize, usize>
    requires { Indexed l.now ix.now × Known Faces goal.now }
    ensures { Settled (steps_of l.now) (faces_of g.entry) (tree_of Faces goal.now) result }
{
    let mut operands = [0u8; 2048];
    let i = 2 + g.faces.len();
    let m = i + goal.len();
    formula::copy(&g.count_field(), &mut operands, 0);
    formula::copy(g.faces, &mut operands, 2);
    formula::copy(goal, &mut operands, i);
    index::finished(l, ix, &operands[..m])
}

// The cover step of the goal ft.
pub fn by_top(p: &mut Producer, g: Context, goal: &[u8]) -> Ran
    requires { Known Faces goal.now × (tree_of Faces goal.now ≡ ft) }
    ensures { RunsFor p.old (emit 21 [] (cover (faces_of g.entry) (tree_of Faces goal.now))) result p.new }
{
    cover_step(p.ledger, p.index, TOP, [0; 3], g, goal)
}

// The cover step of this kind, from the step that f is in the context.
pub fn by_member(p: &mut Producer, kind: usize, f: &[u8], g: Context, goal: &[u8]) -> Ran
    requires { Known Faces f.now × Known Faces goal.now × Rule kind (member (tree_of Faces f.now) (faces_of g) ∷ []) (cover (faces_of g) (tree_of Faces goal.now)) }
    ensures { RunsFor p.old (cover_by kind (tree_of Faces f.now) (faces_of g.entry) (tree_of Faces goal.now)) result p.new }
{
    let i = members::member(p, f, g)?;
    cover_step(p.ledger, p.index, kind, [i, 0, 0], g, goal)
}

// The cover step from ff in the context.
pub fn by_absurd(p: &mut Producer, g: Context, goal: &[u8]) -> Ran
    requires { Known Faces goal.now }
    ensures { RunsFor p.old (cover_by 23 ff (faces_of g.entry) (tree_of Faces goal.now)) result p.new }
{
    let ff = [0u8; 1];
    by_member(p, ABSURD, &ff, g, goal)
}

// The cover step from the clash of two literals at dimension k.
pub fn by_clash(p: &mut Producer, k: usize, g: Context, goal: &[u8]) -> Ran
    requires { (k < 255) × Known Faces goal.now }
    ensures { RunsFor p.old (cover_clash k (faces_of g.entry) (tree_of Faces goal.now)) result p.new }
{
    let i = members::member(p, &steps::literal(formula::literal_kind(0), k), g)?;
    let j = members::member(p, &steps::literal(formula::literal_kind(1), k), g)?;
    cover_step(p.ledger, p.index, CLASH, [i, j, 0], g, goal)
}
