// The bytes of a normal form from the clauses of a face.
ghost use Rattle.std.specs.Prelude.{◌≡◌, map, ◌≤◌, length};
ghost use Rattle.clauses.specs.Words.{words};
ghost use Rattle.forms.specs.Forms.{weight_of, form_nodes, Wrote};
ghost use Rattle.dnf.specs.Forming.{Printable, form_bytes, Shapes, Forms, Whole, Normals};

use crate::{finding, limits};
use clauses::Clause;

// What lists are filled with. As a constant, a list of it is cleared at once.
const BLANK: Clause = Clause {
    w0: 0,
    w1: 0,
    w2: 0,
    w3: 0,
};

// The nodes of the disjunction of clauses.
fn nodes(form: &[Clause]) -> usize
    requires { length form.now ≤ 256 }
    ensures { result ≡ form_nodes (map weight_of form.now) }
{
    if form.is_empty() {
        return 1;
    }
    let mut total = 0;
    for c in form {
        total += forms::weight(*c) + 1;
    }
    total - 1
}

// Writes the disjunction of clauses: its for bytes, then the clauses; the length.
fn write(form: &[Clause], numbers: &[usize], out: &mut [u8]) -> usize
    requires { Printable numbers.now form.now (length out.old) }
    ensures { Wrote out.old 0 (form_bytes numbers.now form.now) result out.new }
{
    if form.is_empty() {
        return forms::put_times(0, 1, out, 0);
    }
    let mut to = forms::put_times(5, form.len() - 1, out, 0);
    for c in form {
        to = forms::put_clause(*c, numbers, out, to);
    }
    to
}

// Writes the normal form of the face f, and answers its length; none where it has too many clauses or nodes.
fn formed(
    f: &[u8],
    numbers: &[usize],
    mask: Clause,
    list: &mut [Clause],
    out: &mut [u8],
) -> Option<usize>
    requires { Shapes (words mask) numbers.now f.now (length list.old) (length out.old) }
    ensures { Forms (words mask) numbers.now f.now out.old result out.new }
{
    let mut sorted = [BLANK; 256];
    let found = finding::find(f, 0, numbers, mask, list, &mut sorted)?;
    let form = &list[..found.count];
    if limits::large(nodes(form)) {
        return None;
    }
    Some(write(form, numbers, out))
}

// The same with a list of N clauses. Each N has a frame of its own, so that a small face does not pay for the largest.
#[inline(never)]
fn sized<const N: usize>(f: &[u8], numbers: &[usize], mask: Clause, out: &mut [u8]) -> Option<usize>
    requires few { N ≤ 8449 }
    requires shapes { Shapes (words mask) numbers.now f.now N (length out.old) }
    ensures { Forms (words mask) numbers.now f.now out.old result out.new }
{
    let mut list = [BLANK; N];
    formed(f, numbers, mask, &mut list, out)
}

// Writes the normal form of the face f, which has so many nodes, and answers its length; none where some list of clauses is
// too long before pruning, or the normal form has too many nodes.
pub fn form(f: &[u8], nodes: usize, out: &mut [u8]) -> Option<usize>
    requires { Whole f.now nodes (length out.old) }
    ensures { Normals f.now out.old result out.new }
{
    let mut numbers = literals::blank();
    literals::collect(f, 0, &mut numbers, 0);
    let mask = literals::mask(&numbers);
    if nodes <= 15 {
        return sized::<513>(f, &numbers, mask, out);
    }
    if nodes <= 127 {
        return sized::<2305>(f, &numbers, mask, out);
    }
    sized::<8449>(f, &numbers, mask, out)
}
