// boundary.
ghost use Rattle.std.specs.Prelude.{[], ◌∷◌, ◌≤◌, length};
ghost use Rattle.calculus.specs.Door.{boundary as boundary_call};
ghost use Rattle.ledger.specs.Ledger.{Led};
ghost use Rattle.steps.specs.Trees.{Known};
ghost use Rattle.replies.specs.Replying.{said_both, Replies};
ghost use Rattle.results.specs.Calls.{BothResults};

use formula::{Size, Sort};
use programs::Program;
use refusals::Refusal;
use replies::Made;

// The call once its results are known to fit.
fn run(
    l: &mut [u8],
    r: &[u8],
    zero: &[u8],
    one: &[u8],
    z: Size,
    out0: &mut [u8],
    out1: &mut [u8],
) -> Result<Made, Refusal>
    requires { Led l.old × Known Sort.Intervals r.now × BothResults r.now zero.now one.now z × (length zero.now ≤ length out0.old) × (length one.now ≤ length out1.old) }
    ensures { Replies (boundary_call r.now out0.old out1.old) l.old (said_both result) l.new (out0.new ∷ out1.new ∷ []) }
{
    let end = ledger::used(l);
    let x = programs::run(l, Program::Boundary, r, r, zero, one);
    let a = replies::ending(l, end, x);
    replies::deliver(a, zero, out0);
    replies::deliver(a, one, out1);
    replies::with_size(a, z)
}

// The call once questions 1 to 4 are answered. The faces of an interval within the limits are within them.
pub fn boundary(l: &mut [u8], r: &[u8], out0: &mut [u8], out1: &mut [u8]) -> Result<Made, Refusal>
    requires { Led l.old × Known Sort.Intervals r.now }
    ensures { Replies (boundary_call r.now out0.old out1.old) l.old (said_both result) l.new (out0.new ∷ out1.new ∷ []) }
{
    let mut zero = [0u8; 1024];
    let mut one = [0u8; 1024];
    let z = operations::boundary(r, &mut zero, &mut one)?;
    let n = z.len;
    if out0.len() < n {
        return Err(Refusal::ShortOutput);
    }
    let short = out1.len() < n;
    if short {
        return Err(Refusal::ShortOutput);
    }
    run(l, r, &zero[..n], &one[..n], z, out0, out1)
}
