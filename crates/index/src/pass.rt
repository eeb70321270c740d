// The index of a ledger, in one pass.
ghost use Rattle.std.specs.Prelude.{◌≡◌, ◌<◌};
ghost use Rattle.ledger.specs.Ledger.{steps_of, Led, Points};
ghost use Rattle.index.specs.Index.{Roomy, Indexed, bucket_at};

use crate::{bucket, enter};
use ledger::Cursor;

// The bucket of a step.
fn bucket_at(c: Cursor, l: &[u8], heads: usize) -> usize
    requires { Points l.now c.step c.at × (0 < heads) }
    ensures { (result ≡ bucket_at heads (steps_of l.now) c.step) × (result < heads) }
{
    let p = c.predicate(l);
    bucket::bucket_of(heads, p, c.operands(l))
}

// The index of all steps.
pub fn build(l: &[u8], x: &mut [u32])
    requires { Led l.now × Roomy l.now x.old }
    ensures { Indexed l.now x.new }
{
    let h = enter::heads(x.len());
    x[..1 + h].fill(0);
    let end = ledger::used(l);
    let mut c = Cursor::start();
    while c.at < end {
        let b = bucket_at(c, l, h);
        enter::enter_step(x, b, c.at);
        c = c.next(l);
    }
}
