// The clauses of a face, in front of a lent list: those of its left part, behind them those of its right part, and then its
// own in their place.
ghost use Rattle.std.specs.Prelude.{◌≡◌, ◌≤◌, ◌+◌, length, get_or, IfSome};
ghost use Rattle.formula.specs.Bytes.{dim_width};
ghost use Rattle.clauses.specs.Words.{words};
ghost use Rattle.dnf.specs.Finding.{literal_at, Asks, Finds};

use crate::joined;
use clauses::Clause;
use literals::Found;

// The clause of the literal at a place.
fn literal(f: &[u8], at: usize, numbers: &[usize]) -> Clause
    requires { (at + 1 + dim_width ≤ length f.now) × (2 ≤ get_or f.now at 0) }
    ensures { result ≡ literal_at numbers.now f.now at }
{
    let side = usize::from(f[at]) - 2;
    let n = formula::dim_at(f, at + 1);
    clauses::single(literals::rank(numbers, 2 * n + side))
}

// The clauses of the face at a place of f; none where a list was too long. The slice `sorted` is scratch.
pub fn find(
    f: &[u8],
    at: usize,
    numbers: &[usize],
    mask: Clause,
    list: &mut [Clause],
    sorted: &mut [Clause],
) -> Option<Found>
    requires { Asks f.now at (length list.old) × (256 ≤ length sorted.old) }
    ensures finds { Finds (words mask) numbers.now f.now at result list.new }
    ensures inside { IfSome result (λ z. z.count ≤ length list.new) }
{
    let kind = f[at];
    let next = at + 1;
    if kind < 2 {
        // That of ft, which ff lacks.
        list[0] = clauses::none();
        return Some(Found {
            end: next,
            count: usize::from(kind),
        });
    }
    if kind < 4 {
        list[0] = literal(f, at, numbers);
        return Some(Found {
            end: next + formula::DIM,
            count: 1,
        });
    }
    let left = find(f, next, numbers, mask, list, sorted)?;
    let n = left.count;
    let right = find(f, left.end, numbers, mask, &mut list[n..], sorted)?;
    let count = joined::node(kind, list, n, right.count, mask, sorted)?;
    Some(Found {
        end: right.end,
        count,
    })
}
