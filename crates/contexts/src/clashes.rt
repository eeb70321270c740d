// Whether two literals of a context clash, in one pass: each literal that is met is kept in a table.
ghost use Rattle.std.specs.Prelude.{◌≡◌, true, ◌<◌, length, replicate};
ghost use Rattle.formula.specs.declared.Sort.TheVariants.{Faces};
ghost use Rattle.calculus.specs.Search.{stuck, try_clash};
ghost use Rattle.steps.specs.Trees.{Known};
ghost use Rattle.contexts.specs.Faces.{faces_of};
ghost use Rattle.contexts.specs.Moves.{Meets};

use crate::Context;

// Keeps the face in the table, where it is a literal; says whether its opposite is not there.
fn meet(x: &[u8], seen: &mut [u8]) -> bool
    requires { Known Faces x.now × (length seen.old ≡ 512) }
    ensures { Meets x.now seen.old result seen.new }
{
    let b = x[0] as usize;
    if b < 2 {
        return true;
    }
    if 3 < b {
        return true;
    }
    let k = formula::dim_at(x, 1);
    let free = seen[2 * k + (3 - b)] == 0;
    seen[2 * k + (b - 2)] = 1;
    free
}

// Whether no two faces of the context are opposite literals; where it is not said, they may be.
pub(crate) fn apart(g: Context, seen: &mut [u8]) -> bool
    requires { seen.old ≡ replicate 512 0 }
    ensures { result ≡ true → try_clash (faces_of g.entry) (faces_of g.entry) ≡ stuck }
{
    let mut rest = g;
    while let Some((x, others)) = rest.split_first() {
        if !meet(x, seen) {
            return false;
        }
        rest = others;
    }
    true
}
