// Where formulas end.
ghost use Rattle.std.specs.Prelude.{◌≤◌, length};
ghost use Rattle.rules.specs.Matching.{Thing, Ends, Formula, Faces};

use crate::State;
use formula::Sort;

fn formula_end(sort: Sort, l: &[u8], at: usize, end: usize) -> Option<usize>
    requires { (at ≤ end) × (end ≤ length l.now) }
    ensures { Ends (Formula sort) l.now at end result }
{
    match formula::measure_at(sort, &l[at..end], 0) {
        Ok(z) => Some(at + z.len),
        Err(_) => None,
    }
}

fn faces_end(l: &[u8], n: usize, at: usize, end: usize) -> Option<usize>
    requires { (at ≤ end) × (end ≤ length l.now) }
    ensures { Ends (Faces n) l.now at end result }
{
    let mut e = at;
    for i in 0..n {
        e = formula_end(Sort::Faces, l, e, end)?;
    }
    Some(e)
}

// Where the thing of slot u ends, if one starts at the cursor.
pub(crate) fn end_of(l: &[u8], u: usize, q: State) -> Option<usize>
    requires { (q.at ≤ q.end) × (q.end ≤ length l.now) }
    ensures { Ends (Thing u q.left) l.now q.at q.end result }
{
    let c = u % 3;
    if c == 0 {
        return formula_end(Sort::Faces, l, q.at, q.end);
    }
    if c == 1 {
        return formula_end(Sort::Intervals, l, q.at, q.end);
    }
    faces_end(l, q.left, q.at, q.end)
}
