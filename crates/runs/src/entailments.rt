// entails and endpoint.
ghost use Rattle.std.specs.Prelude.{[], ◌≤◌};
ghost use Rattle.calculus.specs.Door.{endpoint as endpoint_call, entails as entails_call};
ghost use Rattle.ledger.specs.Ledger.{Led};
ghost use Rattle.steps.specs.Trees.{Known};
ghost use Rattle.boundary_steps.specs.Programs.{Sides};
ghost use Rattle.replies.specs.Replying.{said, Replies};

use formula::Sort;
use programs::Program;
use refusals::Refusal;

// The call once questions 1 to 4 are answered.
pub fn entails(l: &mut [u8], d: usize, a: &[u8], b: &[u8]) -> Result<usize, Refusal>
    requires { Led l.old × (d ≤ 255) × Known Sort.Faces a.now × Known Sort.Faces b.now }
    ensures { Replies (entails_call d a.now b.now) l.old (said result) l.new [] }
{
    let end = ledger::used(l);
    let r = programs::run(l, Program::Entails(d), a, b, a, b);
    replies::ending(l, end, r)
}

// The call once the faces of r are made.
fn run_endpoint(
    l: &mut [u8],
    d: usize,
    phi: &[u8],
    r: &[u8],
    zero: &[u8],
    one: &[u8],
    hi: bool,
) -> Result<usize, Refusal>
    requires { Led l.old × (d ≤ 255) × Known Sort.Faces phi.now × Known Sort.Intervals r.now × Sides r.now zero.now one.now }
    ensures { Replies (endpoint_call d phi.now r.now hi) l.old (said result) l.new [] }
{
    let end = ledger::used(l);
    let x = programs::run(l, Program::Endpoint(d, hi), phi, r, zero, one);
    replies::ending(l, end, x)
}

// The call once questions 1 to 4 are answered. The faces of an interval within the limits are within them.
pub fn endpoint(l: &mut [u8], d: usize, phi: &[u8], r: &[u8], hi: bool) -> Result<usize, Refusal>
    requires { Led l.old × (d ≤ 255) × Known Sort.Faces phi.now × Known Sort.Intervals r.now }
    ensures { Replies (endpoint_call d phi.now r.now hi) l.old (said result) l.new [] }
{
    let mut zero = [0u8; 1024];
    let mut one = [0u8; 1024];
    let z = operations::boundary(r, &mut zero, &mut one)?;
    let n = z.len;
    run_endpoint(l, d, phi, r, &zero[..n], &one[..n], hi)
}
