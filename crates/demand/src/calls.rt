// The calls of `engine`, and the desk that they are used with.
ghost use Rattle.std.specs.Prelude.{[], ◌∷◌};
ghost use Rattle.calculus.specs.Door.{face as face_call, interval as interval_call, boundary as boundary_call, endpoint as endpoint_call, forall as forall_call, shift as shift_call, substitute as substitute_call, entails as entails_call};
ghost use Rattle.calculus.specs.Desk.{DeskGives};
ghost use Rattle.replies.specs.Replying.{said, said_one, said_both};
ghost use Rattle.demand.specs.Answering.{enums};
ghost use Rattle.demand.specs.Demand.{Says};

use desk::Verdict;
use formula::Sort;
use refusals::Refusal;
use replies::Made;

// The desk.
pub fn step_desk(ledger: &[u8]) -> Verdict
    ensures { DeskGives enums.verdict ledger.now result }
{
    desk::step_desk(ledger)
}

pub fn face(ledger: &mut [u8], d: usize, f: &[u8]) -> Result<usize, Refusal>
    ensures { Says enums ledger.old (record { call = face_call d f.now; answer = said result; ledger = ledger.new; outputs = [] }) }
{
    engine::face(ledger, d, f)
}

pub fn interval(ledger: &mut [u8], d: usize, r: &[u8]) -> Result<usize, Refusal>
    ensures { Says enums ledger.old (record { call = interval_call d r.now; answer = said result; ledger = ledger.new; outputs = [] }) }
{
    engine::interval(ledger, d, r)
}

pub fn boundary(
    ledger: &mut [u8],
    r: &[u8],
    out0: &mut [u8],
    out1: &mut [u8],
) -> Result<Made, Refusal>
    ensures { Says enums ledger.old (record { call = boundary_call r.now out0.old out1.old; answer = said_both result; ledger = ledger.new; outputs = out0.new ∷ out1.new ∷ [] }) }
{
    engine::boundary(ledger, r, out0, out1)
}

pub fn endpoint(
    ledger: &mut [u8],
    d: usize,
    phi: &[u8],
    r: &[u8],
    one: bool,
) -> Result<usize, Refusal>
    ensures { Says enums ledger.old (record { call = endpoint_call d phi.now r.now one; answer = said result; ledger = ledger.new; outputs = [] }) }
{
    engine::endpoint(ledger, d, phi, r, one)
}

pub fn forall(ledger: &mut [u8], f: &[u8], k: usize, out: &mut [u8]) -> Result<Made, Refusal>
    ensures { Says enums ledger.old (record { call = forall_call f.now k out.old; answer = said_one result; ledger = ledger.new; outputs = out.new ∷ [] }) }
{
    engine::forall(ledger, f, k, out)
}

pub fn shift(
    ledger: &mut [u8],
    sort: Sort,
    t: &[u8],
    k: usize,
    out: &mut [u8],
) -> Result<Made, Refusal>
    ensures { Says enums ledger.old (record { call = shift_call sort t.now k out.old; answer = said_one result; ledger = ledger.new; outputs = out.new ∷ [] }) }
{
    engine::shift(ledger, sort, t, k, out)
}

pub fn substitute(
    ledger: &mut [u8],
    sort: Sort,
    t: &[u8],
    k: usize,
    r: &[u8],
    out: &mut [u8],
) -> Result<Made, Refusal>
    ensures { Says enums ledger.old (record { call = substitute_call sort t.now k r.now out.old; answer = said_one result; ledger = ledger.new; outputs = out.new ∷ [] }) }
{
    engine::substitute(ledger, sort, t, k, r, out)
}

pub fn entails(ledger: &mut [u8], d: usize, a: &[u8], b: &[u8]) -> Result<usize, Refusal>
    ensures { Says enums ledger.old (record { call = entails_call d a.now b.now; answer = said result; ledger = ledger.new; outputs = [] }) }
{
    engine::entails(ledger, d, a, b)
}
