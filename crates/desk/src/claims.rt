// Where the judgements of a step and of its references stand, as the matcher takes them.
ghost use Rattle.std.specs.Prelude.{◌≡◌, suc, length};
ghost use Rattle.calculus.specs.Rules.{step_at};
ghost use Rattle.ledger.specs.Ledger.{steps_of, Points};
ghost use Rattle.ledger.specs.Noting.{Noted};
ghost use Rattle.desk.specs.Walking.{Claimed, Filled, cited};

use ledger::{Cursor, places};
use rules::Claim;

// The claim of the step.
pub(crate) fn claim_of(l: &[u8], c: Cursor) -> Claim
    requires { Points l.now c.step c.at }
    ensures { Claimed l.now result c.step }
{
    let next = c.next(l);
    Claim {
        predicate: c.predicate(l),
        from: c.operands_from(l),
        to: next.at,
    }
}

// The claims of the step's references, behind its own.
pub(crate) fn claim_references(l: &[u8], noted: &[u32], c: Cursor, claims: &mut [Claim])
    requires { Points l.now c.step c.at × Noted (steps_of l.now) c.step noted.now × (length claims.old ≡ suc (length (step_at (steps_of l.now) c.step).references)) × Filled l.now (cited (steps_of l.now) c.step) 1 claims.old }
    ensures { (length claims.new ≡ length claims.old) × Filled l.now (cited (steps_of l.now) c.step) (length claims.new) claims.new }
{
    for j in 1..claims.len() {
        let d = places::find_step(l, noted, c.reference(l, j - 1));
        claims[j] = claim_of(l, d);
    }
}
