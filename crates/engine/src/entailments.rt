// entails and endpoint.
ghost use Rattle.std.specs.Prelude.{[]};
ghost use Rattle.calculus.specs.Door.{endpoint as endpoint_call, entails as entails_call};
ghost use Rattle.replies.specs.Replying.{said, Replies};

use formula::Sort;
use refusals::Refusal;

// The step that the face a implies the face b over d; 8 where a dimension is not below d, 9 where it does not.
pub fn entails(l: &mut [u8], d: usize, a: &[u8], b: &[u8]) -> Result<usize, Refusal>
    ensures { Replies (entails_call d a.now b.now) l.old (said result) l.new [] }
{
    replies::two(l, Sort::Faces, a, Sort::Faces, b, d <= 255)?;
    runs::entails(l, d, a, b)
}

// The step that the interval r is the end `one` or zero wherever the face phi holds.
pub fn endpoint(l: &mut [u8], d: usize, phi: &[u8], r: &[u8], one: bool) -> Result<usize, Refusal>
    ensures { Replies (endpoint_call d phi.now r.now one) l.old (said result) l.new [] }
{
    replies::two(l, Sort::Faces, phi, Sort::Intervals, r, d <= 255)?;
    runs::endpoint(l, d, phi, r, one)
}
