// The steps of a ledger by number.
ghost use Rattle.std.specs.Prelude.{◌≡◌, ◌≤◌, ◌<◌, length};
ghost use Rattle.calculus.specs.Record.{size};
ghost use Rattle.ledger.specs.Ledger.{steps_of, place_of, Led};

use crate::Cursor;

// Step i, by a walk from an earlier one.
pub(crate) fn walk_to(l: &[u8], c: Cursor, i: usize) -> Cursor
    requires { Led l.now × (i < length (steps_of l.now)) × (c.step ≤ i) × (c.at ≡ place_of (steps_of l.now) c.step) }
    ensures { (result.step ≡ i) × (result.at ≡ place_of (steps_of l.now) i) }
{
    let from = c.step;
    let mut at = c.at;
    for step in from..i {
        let c = Cursor { step, at };
        let n = c.next(l);
        at = n.at;
    }
    Cursor { step: i, at }
}

// Step i.
pub fn seek(l: &[u8], i: usize) -> Cursor
    requires { Led l.now × (i < length (steps_of l.now)) }
    ensures { (result.step ≡ i) × (result.at ≡ place_of (steps_of l.now) i) }
{
    walk_to(l, Cursor::start(), i)
}

// Where the records end.
pub fn used(l: &[u8]) -> usize
    requires { Led l.now }
    ensures { result ≡ size (steps_of l.now) }
{
    4 + records::get4(l, 0)
}
