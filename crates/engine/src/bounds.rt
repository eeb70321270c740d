// face and interval, once over the sort.
ghost use Rattle.std.specs.Prelude.{[]};
ghost use Rattle.calculus.specs.Door.{face as face_call, interval as interval_call};
ghost use Rattle.runs.specs.Calls.{bounded_call};
ghost use Rattle.replies.specs.Replying.{said, Replies};

use formula::Sort;
use refusals::Refusal;

// The call, over the sort.
fn bounded(l: &mut [u8], sort: Sort, d: usize, f: &[u8]) -> Result<usize, Refusal>
    ensures { Replies (bounded_call sort d f.now) l.old (said result) l.new [] }
{
    replies::one(l, sort, f, d <= 255)?;
    runs::bounded(l, sort, d, f)
}

// The step that all dimensions of the face f are below d.
pub fn face(l: &mut [u8], d: usize, f: &[u8]) -> Result<usize, Refusal>
    ensures { Replies (face_call d f.now) l.old (said result) l.new [] }
{
    bounded(l, Sort::Faces, d, f)
}

// The step that all dimensions of the interval r are below d.
pub fn interval(l: &mut [u8], d: usize, r: &[u8]) -> Result<usize, Refusal>
    ensures { Replies (interval_call d r.now) l.old (said result) l.new [] }
{
    bounded(l, Sort::Intervals, d, r)
}
