// The repeat test: whether two ledgers end in the same claim (document 01, "Normal form and repeat test").
#![tactic(auto)]

ghost use Rattle.std.specs.Prelude.{◌≡◌};
ghost use Rattle.std.proofs.Math.Bool.{decide};
ghost use Rattle.calculus.specs.Rules.{judgement_at};
ghost use Rattle.calculus.specs.Record.{operand_bytes};
ghost use Rattle.calculus.specs.Parse.{read_ledger};
ghost use Rattle.ledger.specs.Checks.{step_count};
ghost use Rattle.ledger.specs.Ledger.{steps_of, Points};
ghost use Rattle.repeat_test.specs.Repeats.{same_claim?, last_step, end_alike, repeat_test};

use ledger::Cursor;
use refusals::Refusal;

// The number of the predicate entails.
const ENTAILS: usize = 7;

// What tells the claim of an entails step from others: all of its operands, d and both faces.
fn claim(l: &[u8], c: Cursor) -> &[u8]
    requires { Points l.now c.step c.at }
    ensures { result.now ≡ operand_bytes (judgement_at (steps_of l.now) c.step) }
{
    c.operands(l)
}

// Whether two steps make the same claim.
fn same_claim(l: &[u8], c: Cursor, m: &[u8], e: Cursor) -> bool
    requires { Points l.now c.step c.at × Points m.now e.step e.at }
    ensures { result ≡ decide (same_claim? (judgement_at (steps_of l.now) c.step) (judgement_at (steps_of m.now) e.step)) }
{
    c.predicate(l) == ENTAILS && e.predicate(m) == ENTAILS && claim(l, c) == claim(m, e)
}

// Whether ledgers of n and k steps end in the same claim.
fn end_alike(l: &[u8], n: usize, m: &[u8], k: usize) -> bool
    requires { (step_count (read_ledger l.now) ≡ Ok n) × (step_count (read_ledger m.now) ≡ Ok k) }
    ensures { result ≡ end_alike (last_step (steps_of l.now)) (last_step (steps_of m.now)) }
{
    if n == 0 || k == 0 {
        return false;
    }
    let c = ledger::seek(l, n - 1);
    let e = ledger::seek(m, k - 1);
    same_claim(l, c, m, e)
}

// Whether both ledgers end in an entails step with equal operand bytes; 1 where either is ill formed.
pub fn repeats(l: &[u8], m: &[u8]) -> Result<bool, Refusal>
    ensures { result ≡ repeat_test (read_ledger l.now) (read_ledger m.now) }
{
    let n = ledger::well_formed(l)?;
    let k = ledger::well_formed(m)?;
    Ok(end_alike(l, n, m, k))
}
