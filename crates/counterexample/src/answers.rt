// Questions 2, 3, 4, 6, 8 and 12 about the assignment behind a no.
ghost use Rattle.std.specs.Prelude.{◌≡◌, Ok};
ghost use Rattle.counterexample.specs.Answers.{Shows};
ghost use Rattle.counterexample.specs.Asking.{Sides, Sought, Faced, questioned};

use crate::explore;
use formula::Sort;
use needs::MarkedFace;
use refusals::Refusal;

// The least assignment of d dimensions that satisfies the first face and not the second, in front of the output.
fn search(d: usize, a: &[u8], b: &[u8], out: &mut [u8]) -> Result<usize, Refusal>
    requires { Sought d a.now b.now out.old }
    ensures { Faced d a.now b.now out.old Ok result out.new }
{
    let mut marks = [0u8; 1024];
    let mut state = [2u8; 255];
    needs::mark(a, 0, &mut marks);
    let left = MarkedFace {
        face: a,
        marks: &marks,
    };
    let right = MarkedFace {
        face: b,
        marks: &[],
    };
    match explore::least(&left, &right, &mut state[..d], &mut out[..d]) {
        Some(_) => Ok(d),
        None => Err(Refusal::Implied),
    }
}

// Question 4 of d, and 6 and 8, of two faces with dimensions below a bound.
fn admit(d: usize, a: &[u8], b: &[u8], bound: usize, out: &mut [u8]) -> Result<usize, Refusal>
    requires { Sides a.now b.now bound }
    ensures { Faced d a.now b.now out.old (questioned d out.old) result out.new }
{
    if 255 < d {
        return Err(Refusal::LargeDimension);
    }
    let short = out.len() < d;
    if short {
        return Err(Refusal::ShortOutput);
    }
    if d < bound {
        return Err(Refusal::NotBelow);
    }
    search(d, a, b, out)
}

// Writes the least assignment of d dimensions, a byte each, that satisfies the face a and not the face b.
pub fn counterexample(d: usize, a: &[u8], b: &[u8], out: &mut [u8]) -> Result<usize, Refusal>
    ensures { Shows d a.now b.now out.old result out.new }
{
    let left = formula::operand(Sort::Faces, a);
    let right = formula::operand(Sort::Faces, b);
    match (left, right) {
        (Ok(x), Ok(y)) => admit(d, a, b, x.bound.max(y.bound), out),
        (Err(e), Err(q)) => Err(refusals::earlier(e, q)),
        (Err(e), Ok(_)) => Err(e),
        (Ok(_), Err(q)) => Err(q),
    }
}
