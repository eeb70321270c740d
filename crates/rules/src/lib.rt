// Whether a judgement follows from others by a rule: one pass over the items of a row, with a cursor in the operands of a step and of its references, all in one ledger.
#![tactic(auto)]

mod reach;
mod slots;
mod tokens;

ghost use Rattle.std.specs.Prelude.{◌≤◌, length, get_or, []};
ghost use Rattle.rows.specs.Items.{FitItem, AllFit, RowFits};
ghost use Rattle.rows.specs.Flattening.{joined};
ghost use Rattle.rules.specs.Standing.{Lies, Decides, Ruled};
ghost use Rattle.rules.specs.Matching.{spoken, Matched, Possible, Placed, Turns, Begins, Passes};

use rows::Item;
use slots::Bindings;

// Where a judgement stands: the number of its predicate, and the range of its operands.
#[derive(Clone, Copy)]
pub struct Claim {
    pub predicate: usize,
    pub from: usize,
    pub to: usize,
}

// Where the cursor stands: at `at` in the operands of a judgement that end at `end`; j judgements have begun, `left` faces of a context are to come.
#[derive(Clone, Copy)]
struct State {
    at: usize,
    end: usize,
    left: usize,
    j: usize,
}

// The next judgement, by its predicate p.
fn next_judgement(l: &[u8], p: usize, q: State, claims: &[Claim]) -> Option<State>
    requires { Placed l.now claims.now q × Lies l.now claims.now }
    ensures { Begins (Item.Claim p) q l.now claims.now result }
{
    if q.at != q.end {
        return None;
    }
    if claims.len() <= q.j {
        return None;
    }
    let c = claims[q.j];
    let other = c.predicate != p;
    if other {
        return None;
    }
    Some(State {
        at: c.from,
        end: c.to,
        left: 0,
        j: q.j + 1,
    })
}

// One item of a row: the predicate of the next judgement, or a token in the present one.
fn one_item(l: &[u8], env: &mut Bindings, item: Item, q: State, claims: &[Claim]) -> Option<State>
    requires { FitItem item × Possible l.now env.old × Placed l.now claims.now q × Lies l.now claims.now }
    ensures { Turns item q l.now claims.now env.old result env.new }
{
    match item {
        Item::Claim(p) => next_judgement(l, usize::from(p), q, claims),
        Item::Inside(t) => tokens::one_token(l, env, t, q),
    }
}

// The items of a line.
fn one_line(
    l: &[u8],
    env: &mut Bindings,
    line: &[Item; 10],
    q: State,
    claims: &[Claim],
) -> Option<State>
    requires { AllFit line.now × Possible l.now env.old × Placed l.now claims.now q × Lies l.now claims.now }
    ensures { Passes line.now q l.now claims.now env.old result env.new }
{
    let mut p = q;
    for item in line {
        p = one_item(l, env, *item, p, claims)?;
    }
    Some(p)
}

// Whether the judgements of the claims, the conclusion first, are an instance of the row.
fn match_row(l: &[u8], row: &[[Item; 10]], claims: &[Claim]) -> bool
    requires { Lies l.now claims.now × RowFits row.now }
    ensures { Decides result (Matched (joined row.now) (spoken l.now claims.now)) }
{
    let mut env = Bindings::none();
    let mut q = State {
        at: 0,
        end: 0,
        left: 0,
        j: 0,
    };
    for line in row {
        let Some(p) = one_line(l, &mut env, line, q, claims) else {
            return false;
        };
        q = p;
    }
    if q.at != q.end {
        return false;
    }
    q.j == claims.len()
}

// Whether the judgement of the first claim follows from those of the others, in order, by the rule of the kind.
pub fn follows(l: &[u8], kind: usize, claims: &[Claim]) -> bool
    requires { Lies l.now claims.now }
    ensures { Ruled l.now kind claims.now result }
{
    if kind == 0 {
        return false;
    }
    if 75 < kind {
        return false;
    }
    match_row(l, rows::row(kind), claims)
}
