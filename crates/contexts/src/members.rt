// The judgement that a face is in a context.
ghost use Rattle.formula.specs.declared.Sort.TheVariants.{Faces};
ghost use Rattle.calculus.specs.Calls.{emit_member};
ghost use Rattle.formula.specs.Answers.{tree_of};
ghost use Rattle.steps.specs.Trees.{Known};
ghost use Rattle.steps.specs.Producing.{RunsFor};
ghost use Rattle.contexts.specs.Faces.{faces_of};

use crate::Context;
use steps::{Producer, Ran, Stop};

// The kinds of the rules member.here and member.there.
const HERE: usize = 17;

const THERE: usize = 18;

// The step that f is in the context, from its first place; 9 where it is not.
pub fn member(p: &mut Producer, f: &[u8], g: Context) -> Ran
    requires { Known Faces f.now }
    ensures { RunsFor p.old (emit_member (tree_of Faces f.now) (faces_of g.entry)) result p.new }
{
    let Some((h, others)) = g.split_first() else {
        return Err(Stop::NotImplied);
    };
    let count = g.count_field();
    if formula::same(h, f) {
        return steps::emit(p.ledger, p.index, HERE, [0; 3], &[f, &count, g.faces]);
    }
    let i = member(p, f, others)?;
    steps::emit(p.ledger, p.index, THERE, [i, 0, 0], &[f, &count, g.faces])
}
