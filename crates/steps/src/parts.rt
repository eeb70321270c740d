// The emit rule for operands that stand in several slices.
ghost use Rattle.std.specs.Prelude.{◌≡◌, ◌≤◌, length};
ghost use Rattle.index.specs.Index.{Indexed};
ghost use Rattle.steps.specs.Parts.{joined, Joins};
ghost use Rattle.steps.specs.Running.{book, Emits};

use crate::{Ran, Stop};

// How many bytes the parts have.
fn total(parts: &[&[u8]]) -> usize
    requires { length (joined parts.now) ≤ 4096 }
    ensures { result ≡ length (joined parts.now) }
{
    let mut n = 0;
    for part in parts {
        n += part.len();
    }
    n
}

// Writes the parts one after another to the front of `out`; answers where they end.
fn join(parts: &[&[u8]], out: &mut [u8]) -> usize
    requires { length (joined parts.now) ≤ length out.old }
    ensures { Joins parts.now out.new result }
{
    let mut end = 0;
    for part in parts {
        let to = end + part.len();
        out[end..to].copy_from_slice(part);
        end = to;
    }
    end
}

// Emits the step of this kind whose operands are the parts, one after another, in an array of N bytes.
fn emit_in<const N: usize>(
    l: &mut [u8],
    ix: &mut [u32],
    kind: usize,
    references: [usize; 3],
    parts: &[&[u8]],
) -> Ran
    requires { Indexed l.old ix.old × (N ≤ 4096) × (length (joined parts.now) ≤ N) }
    ensures { Emits (book l.old ix.old) kind references (joined parts.now) result (book l.new ix.new) }
{
    let mut out = [0u8; N];
    let n = join(parts, &mut out);
    emission::emit_step(l, ix, kind, references, &out[..n]).ok_or(Stop::Full)
}

// Emits the step of this kind whose operands are the parts, one after another. Most operands are short, and clearing a small array costs little.
pub fn emit(
    l: &mut [u8],
    ix: &mut [u32],
    kind: usize,
    references: [usize; 3],
    parts: &[&[u8]],
) -> Ran
    requires { Indexed l.old ix.old × (length (joined parts.now) ≤ 4096) }
    ensures { Emits (book l.old ix.old) kind references (joined parts.now) result (book l.new ix.new) }
{
    if total(parts) <= 128 {
        return emit_in::<128>(l, ix, kind, references, parts);
    }
    emit_in::<4096>(l, ix, kind, references, parts)
}
