// The unions of the clauses of two lists, pair by pair; at most 256.
ghost use Rattle.std.specs.Prelude.{◌≤◌, length};
ghost use Rattle.clauses.specs.Normal.{pairs_with as pairs_with_of, pairs as pairs_of};
ghost use Rattle.clauses.specs.Words.{words, facing};
ghost use Rattle.clauses.specs.Lists.{Adds};

use crate::limits;
use clauses::Clause;

// Writes the unions of a clause with those of a list that have none of the literals of o, behind `count` others.
fn pairs_with(
    right: &[Clause],
    c: Clause,
    o: Clause,
    made: &mut [Clause],
    count: usize,
) -> Option<usize>
    requires { (257 ≤ length made.old) × (count ≤ 256) }
    ensures { Adds (pairs_with_of (facing o) c right.now) count made.old result made.new }
{
    let mut k = count;
    for d in right {
        made[k] = clauses::join(c, *d);
        k += usize::from(!clauses::meet(o, *d));
        if limits::over(k) {
            return None;
        }
    }
    Some(k)
}

// Writes the unions of each clause of the one list with those of the other that are not against it.
pub fn pairs(left: &[Clause], right: &[Clause], mask: Clause, made: &mut [Clause]) -> Option<usize>
    requires { 257 ≤ length made.old }
    ensures { Adds (pairs_of (words mask) left.now right.now) 0 made.old result made.new }
{
    let mut k = 0;
    for c in left {
        let o = clauses::opposites(mask, *c);
        k = pairs_with(right, *c, o, made, k)?;
    }
    Some(k)
}
