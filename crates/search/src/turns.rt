// The next turn of the search: the first try that is not stuck.
ghost use Rattle.std.specs.Prelude.{[]};
ghost use Rattle.formula.specs.declared.Sort.TheVariants.{Faces};
ghost use Rattle.calculus.specs.Search.{◌else◌, try_left, try_right, move};
ghost use Rattle.formula.specs.Answers.{tree_of};
ghost use Rattle.steps.specs.Trees.{Known};
ghost use Rattle.contexts.specs.Faces.{faces_of};
ghost use Rattle.search.specs.Turns.{Turns};

use contexts::Context;
use formula::Sort;

// A move: a clash with its dimension, a left move with the number of the compound and where it begins.
#[derive(Clone, Copy)]
pub(crate) enum Turn {
    Top,
    Hit,
    Absurd,
    Opposed(usize),
    AndLeft(usize, usize),
    OrLeft(usize, usize),
    AndRight,
    OrRight,
    Stuck,
}

// The split of the first compound, and where there is none that of the goal.
fn split(g: Context, goal: &[u8]) -> Turn
    requires { Known Faces goal.now }
    ensures { Turns (faces_of g.entry) (tree_of Faces goal.now) (try_left [] (faces_of g.entry) else try_right (tree_of Faces goal.now)) result }
{
    if let Some(i) = contexts::first_compound(g) {
        let at = contexts::offset(i, g);
        let x = formula::formula_at(Sort::Faces, g.faces, at);
        if x[0] == 4 {
            return Turn::AndLeft(i, at);
        }
        return Turn::OrLeft(i, at);
    }
    if goal[0] == 4 {
        return Turn::AndRight;
    }
    if goal[0] == 5 {
        return Turn::OrRight;
    }
    Turn::Stuck
}

// The tries in their order: top, hit, absurd, clash, and the splits.
pub(crate) fn next_turn(g: Context, goal: &[u8]) -> Turn
    requires { Known Faces goal.now }
    ensures { Turns (faces_of g.entry) (tree_of Faces goal.now) (move (faces_of g.entry) (tree_of Faces goal.now)) result }
{
    let top = goal[0] == 1;
    if top {
        return Turn::Top;
    }
    if contexts::has(goal, g) {
        return Turn::Hit;
    }
    let ff = [0u8; 1];
    if contexts::has(&ff, g) {
        return Turn::Absurd;
    }
    match contexts::first_clash(g) {
        Some(k) => Turn::Opposed(k),
        None => split(g, goal),
    }
}
