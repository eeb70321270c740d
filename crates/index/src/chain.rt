// The lowest step with a judgement, through the chain of its bucket.
ghost use Rattle.std.specs.Prelude.{◌≡◌, ◌<◌, suc, length};
ghost use Rattle.calculus.specs.Rules.{step_at};
ghost use Rattle.ledger.specs.Ledger.{steps_of, Points};
ghost use Rattle.formula.specs.Answers.{pick};
ghost use Rattle.index.specs.Finding.{same_step, find_bytes, found_as};
ghost use Rattle.index.specs.Index.{heads_of, bucket_of, Indexed};

use crate::{enter, lowest};
use ledger::Cursor;

// The number of the step, where it has this predicate and these operands; else what was found before.
fn better(
    c: Cursor,
    l: &[u8],
    predicate: usize,
    operands: &[u8],
    found: Option<usize>,
) -> Option<usize>
    requires { Points l.now c.step c.at }
    ensures { result ≡ pick (same_step predicate operands.now (step_at (steps_of l.now) c.step)) (Some c.step) found }
{
    if lowest::is_step(c, l, predicate, operands) {
        return Some(c.step);
    }
    found
}

// The lowest step with this predicate and these operands, whose bucket is b, or how many steps there are: a walk down the chain to its end, for the last equal step is the lowest.
pub fn find_in(
    l: &[u8],
    x: &[u32],
    b: usize,
    predicate: usize,
    operands: &[u8],
) -> Result<usize, usize>
    requires { Indexed l.now x.now × (b ≡ bucket_of (heads_of x.now) predicate operands.now) × (b < heads_of x.now) }
    ensures { result ≡ found_as (find_bytes predicate operands.now (steps_of l.now)) (length (steps_of l.now)) }
{
    let p = enter::places_from(x.len());
    let mut i = enter::slot(x, 1 + b);
    let mut found = None;
    while 0 < i {
        let step = i - 1;
        let c = ledger::places::find_step(l, &x[p..], step);
        found = better(c, l, predicate, operands, found);
        i = enter::link(x, step);
    }
    match found {
        Some(step) => Ok(step),
        None => Err(enter::slot(x, 0)),
    }
}
