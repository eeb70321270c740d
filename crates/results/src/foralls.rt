// forall.
ghost use Rattle.std.specs.Prelude.{[], ◌∷◌, ◌≤◌, ◌<◌, length};
ghost use Rattle.formula.specs.Operations.{forall as forall_of};
ghost use Rattle.calculus.specs.Door.{forall as forall_call};
ghost use Rattle.ledger.specs.Ledger.{Led};
ghost use Rattle.formula.specs.Answers.{tree_of};
ghost use Rattle.steps.specs.Trees.{Known};
ghost use Rattle.replies.specs.Replying.{said_one, Replies};
ghost use Rattle.results.specs.Calls.{ResultOf};

use formula::{Size, Sort};
use programs::Program;
use refusals::Refusal;
use replies::Made;

// The call once its result is known to fit.
fn run(
    l: &mut [u8],
    f: &[u8],
    k: usize,
    res: &[u8],
    z: Size,
    out: &mut [u8],
) -> Result<Made, Refusal>
    requires { Led l.old × Known Sort.Faces f.now × (k < 255) × ResultOf Sort.Faces (forall_of k (tree_of Sort.Faces f.now)) res.now z × (length res.now ≤ length out.old) }
    ensures { Replies (forall_call f.now k out.old) l.old (said_one result) l.new (out.new ∷ []) }
{
    let end = ledger::used(l);
    let r = programs::run(l, Program::Forall(k), f, f, res, res);
    let a = replies::ending(l, end, r);
    replies::deliver(a, res, out);
    replies::with_size(a, z)
}

// The call once questions 1 to 4 are answered.
pub fn forall(l: &mut [u8], f: &[u8], k: usize, out: &mut [u8]) -> Result<Made, Refusal>
    requires { Led l.old × Known Sort.Faces f.now × (k < 255) }
    ensures { Replies (forall_call f.now k out.old) l.old (said_one result) l.new (out.new ∷ []) }
{
    let mut result = [0u8; 1024];
    let z = operations::forall(f, k, &mut result)?;
    let n = z.len;
    let short = out.len() < n;
    if short {
        return Err(Refusal::ShortOutput);
    }
    run(l, f, k, &result[..n], z, out)
}
