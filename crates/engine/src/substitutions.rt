// shift and substitute, once over the operation.
ghost use Rattle.std.specs.Prelude.{[], ◌∷◌};
ghost use Rattle.calculus.specs.Door.{shift as shift_call, substitute as substitute_call};
ghost use Rattle.replies.specs.Replying.{said_one, Replies};

use formula::Sort;
use operations::Op;
use refusals::Refusal;
use replies::Made;

// The step of the formula t of the sort shifted at k, and the result in front of out.
pub fn shift(l: &mut [u8], sort: Sort, t: &[u8], k: usize, out: &mut [u8]) -> Result<Made, Refusal>
    ensures { Replies (shift_call sort t.now k out.old) l.old (said_one result) l.new (out.new ∷ []) }
{
    replies::one(l, sort, t, k < 255)?;
    results::transform(l, sort, Op::DShift(k), t, t, out)
}

// The step of the formula t of the sort with the interval r for dimension k, and the result in front of out.
pub fn substitute(
    l: &mut [u8],
    sort: Sort,
    t: &[u8],
    k: usize,
    r: &[u8],
    out: &mut [u8],
) -> Result<Made, Refusal>
    ensures { Replies (substitute_call sort t.now k r.now out.old) l.old (said_one result) l.new (out.new ∷ []) }
{
    replies::two(l, sort, t, Sort::Intervals, r, k < 255)?;
    results::transform(l, sort, Op::DSubst(k), t, r, out)
}
