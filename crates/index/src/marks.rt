// Searches that are finished.
ghost use Rattle.std.specs.Prelude.{◌<◌, length};
ghost use Rattle.ledger.specs.Ledger.{steps_of};
ghost use Rattle.index.specs.Index.{Finished, Indexed, Knows};

use crate::{bucket, chain, enter};

// The lowest cover step with these operands, where its search is finished.
pub fn finished(l: &[u8], x: &[u32], operands: &[u8]) -> Result<usize, usize>
    requires { Indexed l.now x.now }
    ensures { Knows (steps_of l.now) operands.now result }
{
    let b = bucket::bucket_of(enter::heads(x.len()), 6, operands);
    let i = chain::find_in(l, x, b, 6, operands)?;
    if enter::is_marked(x, i) {
        return Ok(i);
    }
    Err(i)
}

// Marks the search for step i as finished.
pub fn finish(l: &[u8], x: &mut [u32], i: usize)
    requires { Indexed l.now x.old × (i < length (steps_of l.now)) × Finished (steps_of l.now) i }
    ensures { Indexed l.now x.new }
{
    if enter::is_marked(x, i) {
        return;
    }
    enter::set_mark(x, i);
}
