// Left steps: where a face of a context lies, and the context without it.
ghost use Rattle.std.specs.Prelude.{◌≡◌, ◌++◌, ◌+◌, ◌≤◌, suc, length, get_or, take, drop};
ghost use Rattle.formula.specs.Formula.{ff};
ghost use Rattle.calculus.specs.Record.{faces_bytes};
ghost use Rattle.calculus.specs.Calls.{emit_take};
ghost use Rattle.steps.specs.Producing.{RunsFor};
ghost use Rattle.contexts.specs.Contexts.{cut, At};
ghost use Rattle.contexts.specs.Faces.{faces_of};

use crate::{Context, takes};
use steps::{Producer, Ran};

// Where the face number i of the context begins.
pub fn offset(i: usize, g: Context) -> usize
    ensures { result ≡ length (faces_bytes (take i (faces_of g.entry))) }
{
    if i == 0 {
        return 0;
    }
    match g.split_first() {
        Some((h, others)) => h.len() + offset(i - 1, others),
        None => 0,
    }
}

// Writes front, and behind it g without its bytes from `at` up to `end`; answers how many bytes that are.
pub fn leave(front: &[u8], g: &[u8], at: usize, end: usize, out: &mut [u8]) -> usize
    requires { (at ≤ end) × (end ≤ length g.now) × (length front.now + length (cut at end g.now) ≤ length out.old) }
    ensures { (result ≤ length out.new) × (take result out.new ≡ front.now ++ cut at end g.now) }
{
    let i = front.len();
    let j = i + at;
    formula::copy(front, out, 0);
    formula::copy(&g[..at], out, i);
    formula::copy(&g[end..], out, j);
    j + (g.len() - end)
}

// The step that leaves the face number i, whose bytes x begin at `at`, out of the context.
pub fn left_out(p: &mut Producer, i: usize, x: &[u8], at: usize, g: Context) -> Ran
    requires { At (faces_of g) i x.now at g.count g.faces.now }
    ensures { RunsFor p.old (emit_take (take i (faces_of g.entry)) (get_or (faces_of g.entry) i ff) (drop (suc i) (faces_of g.entry))) result p.new }
{
    let mut made = [0u8; 1024];
    let m = leave(&[], g.faces, at, at + x.len(), &mut made);
    let others = Context {
        count: g.count - 1,
        faces: &made[..m],
    };
    takes::take(p, i, x, g, others)
}
