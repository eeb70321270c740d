// boundary.
ghost use Rattle.std.specs.Prelude.{[], ◌∷◌};
ghost use Rattle.calculus.specs.Door.{boundary as boundary_call};
ghost use Rattle.replies.specs.Replying.{said_both, Replies};

use formula::Sort;
use refusals::Refusal;
use replies::Made;

// The step of the boundary of the interval r, and its two faces in front of out0 and out1.
pub fn boundary(l: &mut [u8], r: &[u8], out0: &mut [u8], out1: &mut [u8]) -> Result<Made, Refusal>
    ensures { Replies (boundary_call r.now out0.old out1.old) l.old (said_both result) l.new (out0.new ∷ out1.new ∷ []) }
{
    replies::one(l, Sort::Intervals, r, true)?;
    results::boundary(l, r, out0, out1)
}
