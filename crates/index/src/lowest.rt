// Whether a step has a judgement, by predicate and operands.
ghost use Rattle.std.specs.Prelude.{◌≡◌};
ghost use Rattle.calculus.specs.Rules.{step_at};
ghost use Rattle.ledger.specs.Ledger.{steps_of, Points};
ghost use Rattle.index.specs.Finding.{same_step, RulesOut};

use ledger::Cursor;

// Whether the record of the step ends with these bytes: it does where they are its operands, and few others do.
fn ends_with(c: Cursor, l: &[u8], operands: &[u8]) -> bool
    requires { Points l.now c.step c.at }
    ensures { RulesOut l.now c.step operands.now result }
{
    let at = c.at;
    let m = operands.len();
    let next = c.next(l);
    let end = next.at;
    if end - at < m {
        return false;
    }
    formula::same(&l[end - m..end], operands)
}

// Whether the step has this predicate and these operands.
pub(crate) fn is_step(c: Cursor, l: &[u8], predicate: usize, operands: &[u8]) -> bool
    requires { Points l.now c.step c.at }
    ensures { result ≡ same_step predicate operands.now (step_at (steps_of l.now) c.step) }
{
    if !ends_with(c, l, operands) {
        return false;
    }
    if c.predicate(l) != predicate {
        return false;
    }
    formula::same(c.operands(l), operands)
}
