// The index of a ledger, as large as the ledger's length asks for: a small question on a small ledger pays for a small one.
ghost use Rattle.std.specs.Prelude.{◌-◌, ◌*◌, ◌/◌, ◌≤◌, length};
ghost use Rattle.ledger.specs.Ledger.{Led};
ghost use Rattle.steps.specs.Running.{RunsOn};
ghost use Rattle.programs.specs.Programs.{program_of, Ready};

use crate::{Program, emitters};
use steps::{Producer, Ran};

// With an index of N numbers.
#[inline(never)]
fn with_index<const N: usize>(
    l: &mut [u8],
    p: Program,
    a: &[u8],
    b: &[u8],
    c: &[u8],
    e: &[u8],
) -> Ran
    requires { Led l.old × (N ≤ 172034) × (length l.old ≤ 128 * ((N - 2) / 21)) × Ready p a.now b.now c.now e.now }
    ensures { RunsOn l.old (program_of p a.now b.now) result l.new }
{
    let mut index = [0u32; N];
    index::build(l, &mut index);
    let mut producer = Producer {
        ledger: l,
        index: &mut index,
    };
    emitters::emit(&mut producer, p, a, b, c, e)
}

// The index of the least size from `size` on that serves the ledger: for at most 4,096 bytes, 65,536 bytes, and 1,048,576 bytes, as long as one may be. It calls itself so that each array has a frame of its own, since not every compiler heeds `inline(never)`: in one frame of functions that are called once each, a small ledger would pay for the largest.
fn sized(l: &mut [u8], size: usize, p: Program, a: &[u8], b: &[u8], c: &[u8], e: &[u8]) -> Ran
    requires { Led l.old × Ready p a.now b.now c.now e.now }
    ensures { RunsOn l.old (program_of p a.now b.now) result l.new }
{
    if 65536 < l.len() {
        return with_index::<172034>(l, p, a, b, c, e);
    }
    if size < l.len() {
        return sized(l, 65536, p, a, b, c, e);
    }
    if l.len() <= 4096 {
        return with_index::<674>(l, p, a, b, c, e);
    }
    with_index::<10754>(l, p, a, b, c, e)
}

// The steps of what is asked about the formulas a and b, whose results are c and e.
pub fn run(l: &mut [u8], p: Program, a: &[u8], b: &[u8], c: &[u8], e: &[u8]) -> Ran
    requires { Led l.old × Ready p a.now b.now c.now e.now }
    ensures { RunsOn l.old (program_of p a.now b.now) result l.new }
{
    sized(l, 4096, p, a, b, c, e)
}
