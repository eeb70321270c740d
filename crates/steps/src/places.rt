// Runs that go over a formula: the place goes in by value and comes back behind it.
ghost use Rattle.std.specs.Prelude.{◌≡◌, ◌≤◌, ◌<◌, length};
ghost use Rattle.steps.specs.Walking.{KnownAt, behind_at, span, Spans, inside_of, below_of};

use formula::{Place, Sort};

// The bytes from `at` up to the place.
pub fn between(s: &[u8], at: usize, end: Place) -> &[u8]
    requires { Spans s.now at end }
    ensures { result.now ≡ span at end s.now }
{
    let to = end.at;
    &s[at..to]
}

// The place behind the formula at p.
pub fn over(sort: Sort, s: &[u8], p: Place) -> Place
    requires { KnownAt sort s.now p }
    ensures { result ≡ behind_at sort s.now p }
{
    let at = p.at;
    let part = formula::formula_at(sort, s, at);
    Place {
        at: at + part.len(),
        pending: p.pending - 1,
    }
}

// The place behind the first byte of the formula over two at p: both are still to come.
pub fn inside(s: &[u8], p: Place) -> Place
    requires { (p.at < length s.now) × (p.pending ≤ length s.now) }
    ensures { result ≡ inside_of p }
{
    Place {
        at: p.at + 1,
        pending: p.pending + 1,
    }
}

// The place behind the first byte of the formula over one at p.
pub fn below(s: &[u8], p: Place) -> Place
    requires { p.at < length s.now }
    ensures { result ≡ below_of p }
{
    Place {
        at: p.at + 1,
        pending: p.pending,
    }
}
