// Whether a formula is at most 32 levels deep, in one pass over its nodes.
ghost use Rattle.std.specs.Prelude.{◌≡◌, leb};
ghost use Rattle.formula.specs.Answers.{tree_of};
ghost use Rattle.passes.specs.Rewriting.{Whole};
ghost use Rattle.passes.specs.Stepping.{kind_over};
ghost use Rattle.syntax.specs.Syntax.{depth as depth_of, max_depth};
ghost use Rattle.syntax.specs.Depths.{Above, Back, Onward};

use formula::{Advance, Place, Sort};

// The nodes above the next one are a stack of bits, the lowest node's first: 1 where it waits for its second part. A 1
// above all of them tells how many there are; where it is this bit or a higher one, that is more than 32.
const TOO_DEEP: u64 = 1 << 33;

// Behind a leaf: up to the lowest node that waits, whose second part comes next. Where none waits the formula is at its end.
fn back(above: u64) -> u64
    requires { Above above }
    ensures { Back above result }
{
    (above >> above.trailing_zeros()) - 1
}

// Behind a node, by the step over it.
fn onward(x: Advance, above: u64) -> u64
    requires { Above above }
    ensures { Onward (kind_over x) above result }
{
    match x {
        Advance::One(_) => 2 * above,
        Advance::Two(_) => 2 * above + 1,
        Advance::Leaf(_) | Advance::Lit(_, _) | Advance::Stuck => back(above),
    }
}

// Is no node of the formula deeper than 32? The pass ends at the first that is, so that a word has room for all above it.
pub(crate) fn shallow(sort: Sort, s: &[u8]) -> bool
    requires { Whole sort s.now }
    ensures { result ≡ leb (depth_of sort (tree_of sort s.now)) max_depth }
{
    let mut p = Place::start(0);
    let mut above: u64 = 1;
    while 0 < p.pending {
        if TOO_DEEP <= above {
            return false;
        }
        let x = p.step(sort, s);
        above = onward(x, above);
        p = passes::place_by(x);
    }
    true
}
