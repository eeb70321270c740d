// Questions 1 to 4: the ledger, then that the operands are formulas, then their nodes, then their dimensions.
ghost use Rattle.std.specs.Prelude.{◌≡◌, ◌&&◌, leb, Ok};
ghost use Rattle.formula.specs.Bytes.{max_nodes, max_bound, read_all};
ghost use Rattle.calculus.specs.Parse.{read_ledger};
ghost use Rattle.replies.specs.Asking.{limits_gate, ledger_gate, operand_gate, operands_gate};

use formula::Sort;
use refusals::Refusal;

// Questions 3 and 4; low tells whether the call's number keeps the limit.
fn limits(nodes: usize, bound: usize, low: bool) -> Result<(), Refusal>
    ensures { result ≡ limits_gate (leb nodes max_nodes) (low && leb bound max_bound) }
{
    let many = 511 < nodes;
    if many {
        return Err(Refusal::TooManyNodes);
    }
    if !low || 255 < bound {
        return Err(Refusal::LargeDimension);
    }
    Ok(())
}

// Question 1.
fn opened(l: &[u8]) -> Result<(), Refusal>
    ensures { result ≡ ledger_gate (read_ledger l.now) (Ok tt) }
{
    if ledger::well_formed(l).is_err() {
        return Err(Refusal::IllFormedLedger);
    }
    Ok(())
}

// Questions 2 to 4 of one formula.
fn operand(sort: Sort, f: &[u8], low: bool) -> Result<(), Refusal>
    ensures { result ≡ operand_gate sort (read_all sort f.now) low }
{
    let z = formula::measure(sort, f)?;
    limits(z.nodes, z.bound, low)
}

// Questions 2 to 4 of two formulas.
fn operands(sort: Sort, f: &[u8], other: Sort, g: &[u8], low: bool) -> Result<(), Refusal>
    ensures { result ≡ operands_gate sort (read_all sort f.now) other (read_all other g.now) low }
{
    let z = formula::measure(sort, f)?;
    let y = formula::measure(other, g)?;
    let nodes = formula::larger(z.nodes, y.nodes);
    let bound = formula::larger(z.bound, y.bound);
    limits(nodes, bound, low)
}

// Questions 1 to 4 of a call with one formula.
pub fn one(l: &[u8], sort: Sort, f: &[u8], low: bool) -> Result<(), Refusal>
    ensures { result ≡ ledger_gate (read_ledger l.now) (operand_gate sort (read_all sort f.now) low) }
{
    opened(l)?;
    operand(sort, f, low)
}

// Questions 1 to 4 of a call with two formulas.
pub fn two(l: &[u8], sort: Sort, f: &[u8], other: Sort, g: &[u8], low: bool) -> Result<(), Refusal>
    ensures { result ≡ ledger_gate (read_ledger l.now) (operands_gate sort (read_all sort f.now) other (read_all other g.now) low) }
{
    opened(l)?;
    operands(sort, f, other, g, low)
}
