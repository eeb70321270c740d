// The emit rule, through the index.
ghost use Rattle.std.specs.Prelude.{◌≤◌, length};
ghost use Rattle.index.specs.Index.{Indexed};
ghost use Rattle.emission.specs.Emitting.{Emission, EmissionAs, Keeps, KeepsAs};

use crate::grow;

// The number of the step for a kind with these references and this predicate.
#[inline(always)]
fn emit_listed(
    l: &mut [u8],
    x: &mut [u32],
    kind: usize,
    references: &[usize],
    predicate: usize,
    operands: &[u8],
) -> Option<usize>
    requires { Indexed l.old x.old × (length references.now ≤ 3) }
    ensures { EmissionAs l.old kind references.now predicate operands.now result l.new × KeepsAs l.old kind references.now predicate operands.now l.new x.new }
{
    let b = index::bucket_of(index::heads(x.len()), predicate, operands);
    match index::find_in(l, x, b, predicate, operands) {
        Ok(i) => Some(i),
        Err(i) => {
            let at = grow::append(l, kind, references, operands)?;
            index::enter_step(x, b, at);
            Some(i)
        }
    }
}

// The lowest step with the same predicate and operands; else one more, where there is room. It is part of `steps::emit`, which is then
// too large to be made part of the emitters: there its array would stand in each level of their recursions. Rattle's own compiler heeds
// no `inline(never)`.
#[inline(always)]
pub fn emit_step(
    l: &mut [u8],
    x: &mut [u32],
    kind: usize,
    references: [usize; 3],
    operands: &[u8],
) -> Option<usize>
    requires { Indexed l.old x.old }
    ensures { Emission l.old kind references operands.now result l.new × Keeps l.old kind references operands.now l.new x.new }
{
    let e = kinds::entry_of(kind)?;
    let n = e.references;
    emit_listed(l, x, kind, &references[..n], e.predicate, operands)
}
