// Looking a step of a ledger up by its number: where its judgement stands, its kind, and what it refers to.
#![tactic(auto)]

ghost use Rattle.std.specs.Prelude.{◌≡◌};
ghost use Rattle.calculus.specs.Parse.{operands_at};
ghost use Rattle.ledger.specs.Ledger.{steps_of};
ghost use Rattle.lookup.specs.Lookup.{Sought, operands_start, operands_length, kind_of, reference_of, WritesRule};

use ledger::Cursor;
use refusals::Refusal;

// A part of a ledger: where it begins, and how many bytes it has.
#[derive(Clone, Copy)]
pub struct Part {
    pub start: usize,
    pub len: usize,
}

// Step i, where the bytes are a ledger that has it.
fn find(l: &[u8], i: usize) -> Option<Cursor>
    ensures { Sought l.now i result }
{
    let Ok(n) = ledger::well_formed(l) else {
        return None;
    };
    if n <= i {
        return None;
    }
    Some(ledger::seek(l, i))
}

// Where the judgement of step i stands in the ledger; start 0 and length 0 where there is no such step.
pub fn locate(l: &[u8], i: usize) -> Part
    ensures { (result.start ≡ operands_start (steps_of l.now) i) × (result.len ≡ operands_length (steps_of l.now) i) }
{
    let Some(c) = find(l, i) else {
        return Part { start: 0, len: 0 };
    };
    let start = c.operands_from(l);
    let end = c.next(l);
    Part {
        start,
        len: end.at - start,
    }
}

// The bytes of the judgement of step i, a part of the caller's own slice; the empty part where there is no such step.
pub fn operands(l: &[u8], i: usize) -> &[u8]
    ensures { result.now ≡ operands_at l.now i }
{
    let p = locate(l, i);
    let start = p.start;
    let end = start + p.len;
    &l[start..end]
}

// The kind of step i, or 0.
pub fn kind(l: &[u8], i: usize) -> usize
    ensures { result ≡ kind_of (steps_of l.now) i }
{
    match find(l, i) {
        Some(c) => c.kind(l),
        None => 0,
    }
}

// One more than the step that reference j of step i names, or 0.
pub fn reference(l: &[u8], i: usize, j: usize) -> usize
    ensures { result ≡ reference_of (steps_of l.now) i j }
{
    let Some(c) = find(l, i) else {
        return 0;
    };
    if c.entry(l).references <= j {
        return 0;
    }
    1 + c.reference(l, j)
}

// The name of the rule of a kind, in front of out where it fits; nothing for a number that is no kind.
pub fn rule_name(kind: usize, out: &mut [u8]) -> Result<usize, Refusal>
    ensures { WritesRule kind out.old result out.new }
{
    let n = kinds::name_len(kind);
    if out.len() < n {
        return Err(Refusal::ShortOutput);
    }
    kinds::put_name(kind, out, 0);
    Ok(n)
}
