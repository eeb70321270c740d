// Questions 2, 3, 4 and 13 of one operand.
ghost use Rattle.std.specs.Prelude.{◌≡◌};
ghost use Rattle.formula.specs.Answers.{tree_of};
ghost use Rattle.syntax.specs.Syntax.{limited, counted};
ghost use Rattle.syntax.specs.Depths.{Kept};

use crate::depths;
use formula::{Size, Sort};
use refusals::Refusal;

// Question 13 of an operand of this size. A node of 33 has at most 32 above it, so small formulas need no pass.
fn limits(sort: Sort, s: &[u8], z: Size) -> Result<usize, Refusal>
    requires { Kept sort s.now z }
    ensures { result ≡ limited sort (tree_of sort s.now) }
{
    let beyond = 33 < z.bound;
    if beyond {
        return Err(Refusal::BeyondProducer);
    }
    let few = z.nodes <= 33;
    if few || depths::shallow(sort, s) {
        return Ok(z.nodes);
    }
    Err(Refusal::BeyondProducer)
}

// The nodes of a formula of the sort that the producer takes.
pub fn count(sort: Sort, s: &[u8]) -> Result<usize, Refusal>
    ensures { result ≡ counted sort s.now }
{
    let z = formula::operand(sort, s)?;
    limits(sort, s, z)
}
