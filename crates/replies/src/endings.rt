// Questions 7 to 9: what a run comes to, and its results.
ghost use Rattle.std.specs.Prelude.{◌≡◌, ◌≤◌, length};
ghost use Rattle.calculus.specs.Record.{size};
ghost use Rattle.ledger.specs.Ledger.{steps_of, Led};
ghost use Rattle.replies.specs.Ending.{Ending, made_by, out_by};

use crate::Made;
use formula::Size;
use refusals::Refusal;
use steps::{Ran, Stop};

// The answer; out of room, the ledger goes back to its first `end` bytes.
pub fn ending(l: &mut [u8], end: usize, r: Ran) -> Result<usize, Refusal>
    requires { Led l.old × (4 ≤ end) × (end ≤ size (steps_of l.old)) }
    ensures { Ending l.old end r result l.new }
{
    match r {
        Ok(n) => Ok(n),
        Err(Stop::NotBelow) => Err(Refusal::NotBelow),
        Err(Stop::NotImplied) => Err(Refusal::NotImplied),
        Err(Stop::Full) => {
            emission::undo(l, end);
            Err(Refusal::FullLedger)
        }
    }
}

// The answer with the size of the result.
pub fn with_size(a: Result<usize, Refusal>, z: Size) -> Result<Made, Refusal>
    ensures { result ≡ made_by a z }
{
    let step = a?;
    Ok(Made { step, size: z })
}

// Writes the result, unless the call is refused.
pub fn deliver(a: Result<usize, Refusal>, res: &[u8], out: &mut [u8])
    requires { length res.now ≤ length out.old }
    ensures { out.new ≡ out_by a res.now out.old }
{
    if a.is_ok() {
        formula::copy(res, out, 0);
    }
}
