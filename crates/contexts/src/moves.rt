// The next move of the search: tests of the context, in the order of the tries.
ghost use Rattle.std.specs.Prelude.{◌≡◌};
ghost use Rattle.formula.specs.declared.Sort.TheVariants.{Faces};
ghost use Rattle.calculus.specs.Search.{has, clash_of, try_clash};
ghost use Rattle.formula.specs.Answers.{tree_of};
ghost use Rattle.steps.specs.Trees.{Known};
ghost use Rattle.contexts.specs.Faces.{faces_of};
ghost use Rattle.contexts.specs.Moves.{clash_by, FirstCompound};

use crate::{Context, clashes};

// Whether f is in the context.
pub fn has(f: &[u8], g: Context) -> bool
    requires { Known Faces f.now }
    ensures { result ≡ has (tree_of Faces f.now) (faces_of g.entry) }
{
    let mut rest = g;
    while let Some((h, others)) = rest.split_first() {
        if formula::same(f, h) {
            return true;
        }
        rest = others;
    }
    false
}

// The dimension of the face x, where it is a literal whose opposite is in the context. The side of kind byte b is b - 2, the other one 3 - b.
fn opposed(x: &[u8], g: Context) -> Option<usize>
    requires { Known Faces x.now }
    ensures { clash_by result ≡ clash_of (faces_of g.entry) (tree_of Faces x.now) }
{
    let b = x[0];
    if b < 2 {
        return None;
    }
    if 3 < b {
        return None;
    }
    let k = formula::dim_at(x, 1);
    if has(&steps::literal(formula::literal_kind(3 - b), k), g) {
        return Some(k);
    }
    None
}

// The dimension of the first clash in the context g of a face of h.
fn clash_in(g: Context, h: Context) -> Option<usize>
    ensures { clash_by result ≡ try_clash (faces_of g.entry) (faces_of h.entry) }
{
    let (x, others) = h.split_first()?;
    match opposed(x, g) {
        Some(k) => Some(k),
        None => clash_in(g, others),
    }
}

// The dimension of the first clash in the context.
pub fn first_clash(g: Context) -> Option<usize>
    ensures { clash_by result ≡ try_clash (faces_of g.entry) (faces_of g.entry) }
{
    let mut seen = [0u8; 512];
    if clashes::apart(g, &mut seen) {
        return None;
    }
    clash_in(g, g)
}

// The number of the first compound face.
pub fn first_compound(g: Context) -> Option<usize>
    ensures { FirstCompound (faces_of g.entry) result }
{
    let (x, others) = g.split_first()?;
    let compound = 3 < x[0];
    if compound {
        return Some(0);
    }
    let i = first_compound(others)?;
    Some(1 + i)
}
