// Which fands have parts that share no literal. Each pair of leaves is compared once, at the node where they meet.
ghost use Rattle.std.specs.Prelude.{◌≡◌, ◌||◌, ◌≤◌, ◌<◌, ◌+◌, length, get_or, drop};
ghost use Rattle.needs.specs.Places.{Stands};
ghost use Rattle.needs.specs.Marking.{Marks, Finds, Has, Shares, Marked};

// A face with its marks: 1 only at fands whose parts share no literal. A mark that isn't there is none.
#[derive(Clone, Copy)]
pub struct MarkedFace<'a> {
    pub face: &'a [u8],
    pub marks: &'a [u8],
    ghost right: { Marks face.now marks.now },
}

// Whether something was found in a face, and the place behind the face.
#[derive(Clone, Copy)]
struct Seen {
    found: bool,
    at: usize,
}

// Whether a literal of the face at a place passes a test of its dimension and side.
fn any_literal<F: Fn(usize, u8) -> bool>(f: &[u8], at: usize, test: &F) -> Seen
    requires stands { Stands f.now at }
    requires callable { F.IsAlwaysCallable test.now }
    ensures { Finds (F.post test.now) f.now at result.at result.found }
{
    let kind = f[at];
    let next = at + 1;
    match kind {
        0..=1 => Seen {
            found: false,
            at: next,
        },
        2..=3 => Seen {
            found: test(formula::dim_at(f, next), kind - 2),
            at: next + formula::DIM,
        },
        _ => {
            let left = any_literal(f, next, test);
            let right = any_literal(f, left.at, test);
            Seen {
                found: left.found || right.found,
                at: right.at,
            }
        }
    }
}

// Whether the face at a place has the literal of dimension n at a side.
fn has(f: &[u8], at: usize, n: usize, side: u8) -> bool
    requires { Stands f.now at }
    ensures { Has f.now at n side result }
{
    any_literal(f, at, &|m, e| m == n && e == side).found
}

// Whether the faces at two places share a literal.
fn share(f: &[u8], at: usize, other: usize) -> bool
    requires { Stands f.now at × Stands f.now other }
    ensures { Shares f.now at other result }
{
    any_literal(f, at, &|n, side| has(f, other, n, side)).found
}

// Marks each fand of the face at a place whose parts share no literal; the place behind the face.
pub fn mark(f: &[u8], at: usize, marks: &mut [u8]) -> usize
    requires stands { Stands f.now at × Marks f.now marks.old }
    requires f_in_bounds { length f.now ≤ length marks.old }
    ensures { Marked f.now at marks.old result marks.new }
{
    let kind = f[at];
    let next = at + 1;
    match kind {
        0..=1 => next,
        2..=3 => next + formula::DIM,
        _ => {
            let middle = mark(f, next, marks);
            let end = mark(f, middle, marks);
            if !share(f, next, middle) {
                marks[at] = 1;
            }
            end
        }
    }
}
