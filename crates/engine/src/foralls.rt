// forall.
ghost use Rattle.std.specs.Prelude.{[], ◌∷◌};
ghost use Rattle.calculus.specs.Door.{forall as forall_call};
ghost use Rattle.replies.specs.Replying.{said_one, Replies};

use formula::Sort;
use refusals::Refusal;
use replies::Made;

// The step of ∀k of the face f, and the result in front of out.
pub fn forall(l: &mut [u8], f: &[u8], k: usize, out: &mut [u8]) -> Result<Made, Refusal>
    ensures { Replies (forall_call f.now k out.old) l.old (said_one result) l.new (out.new ∷ []) }
{
    replies::one(l, Sort::Faces, f, k < 255)?;
    results::forall(l, f, k, out)
}
