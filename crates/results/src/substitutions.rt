// shift and substitute, once over the operation.
ghost use Rattle.std.specs.Prelude.{[], ◌∷◌, ◌≤◌, length};
ghost use Rattle.calculus.specs.Calls.{transform as transform_of};
ghost use Rattle.ledger.specs.Ledger.{Led};
ghost use Rattle.formula.specs.Answers.{tree_of};
ghost use Rattle.steps.specs.Trees.{Known};
ghost use Rattle.transforms.specs.Transforms.{op_of, KnownOp};
ghost use Rattle.replies.specs.Replying.{said_one, Replies};
ghost use Rattle.results.specs.Calls.{transform_call, ResultOf};

use formula::{Size, Sort};
use operations::Op;
use programs::Program;
use refusals::Refusal;
use replies::Made;

// The call once its result is known to fit.
fn run(
    l: &mut [u8],
    sort: Sort,
    op: Op,
    t: &[u8],
    r: &[u8],
    res: &[u8],
    z: Size,
    out: &mut [u8],
) -> Result<Made, Refusal>
    requires { Led l.old × Known sort t.now × KnownOp op r.now × ResultOf sort (transform_of sort (op_of op r.now) (tree_of sort t.now)) res.now z × (length res.now ≤ length out.old) }
    ensures { Replies (transform_call sort op t.now r.now out.old) l.old (said_one result) l.new (out.new ∷ []) }
{
    let end = ledger::used(l);
    let x = programs::run(l, Program::Transform(sort, op), t, r, res, res);
    let a = replies::ending(l, end, x);
    replies::deliver(a, res, out);
    replies::with_size(a, z)
}

// The call once questions 1 to 4 are answered. A shift does not read r.
pub fn transform(
    l: &mut [u8],
    sort: Sort,
    op: Op,
    t: &[u8],
    r: &[u8],
    out: &mut [u8],
) -> Result<Made, Refusal>
    requires { Led l.old × Known sort t.now × KnownOp op r.now }
    ensures { Replies (transform_call sort op t.now r.now out.old) l.old (said_one result) l.new (out.new ∷ []) }
{
    let mut result = [0u8; 1024];
    let z = operations::transform(sort, op, t, r, &mut result)?;
    let n = z.len;
    let short = out.len() < n;
    if short {
        return Err(Refusal::ShortOutput);
    }
    run(l, sort, op, t, r, &result[..n], z, out)
}
