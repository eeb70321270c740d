// The judgement that a face is left out of a context.
ghost use Rattle.std.specs.Prelude.{suc, get_or, drop, take};
ghost use Rattle.formula.specs.Formula.{ff};
ghost use Rattle.calculus.specs.Calls.{emit_take};
ghost use Rattle.steps.specs.Producing.{RunsFor};
ghost use Rattle.contexts.specs.Contexts.{LeftOut};
ghost use Rattle.contexts.specs.Faces.{faces_of};

use crate::Context;
use steps::{Producer, Ran};

// The kinds of the rules take.here and take.there.
const HERE: usize = 19;

const THERE: usize = 20;

// The step that leaves x, the face number i of the context, out of it; d has the other faces.
pub fn take<'a>(p: &mut Producer, i: usize, x: &[u8], g: Context<'a>, d: Context<'a>) -> Ran
    requires { LeftOut (faces_of g) i x.now (faces_of d) }
    ensures { RunsFor p.old (emit_take (take i (faces_of g.entry)) (get_or (faces_of g.entry) i ff) (drop (suc i) (faces_of g.entry))) result p.new }
{
    let before = g.count_field();
    let after = d.count_field();
    if i == 0 {
        return steps::emit(
            p.ledger,
            p.index,
            HERE,
            [0; 3],
            &[&before, g.faces, x, &after, d.faces],
        );
    }
    let (_, g_rest) = g.split_first().unwrap();
    let (_, d_rest) = d.split_first().unwrap();
    let r = take(p, i - 1, x, g_rest, d_rest)?;
    steps::emit(
        p.ledger,
        p.index,
        THERE,
        [r, 0, 0],
        &[&before, g.faces, x, &after, d.faces],
    )
}
