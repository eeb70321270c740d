// One token of a row at the cursor: the cursor behind it, if there is a way on.
ghost use Rattle.std.specs.Prelude.{◌≤◌, ◌<◌, length};
ghost use Rattle.rows.specs.Items.{Fit};
ghost use Rattle.rules.specs.Matching.{Possible, Moves, MovesOnly};

use crate::slots::Bindings;
use crate::{State, reach};
use rows::Token;

// The bytes of slot u.
fn part_token(l: &[u8], env: &mut Bindings, u: usize, q: State) -> Option<State>
    requires { (u < 24) × (q.at ≤ q.end) × (q.end ≤ length l.now) × Possible l.now env.old }
    ensures { Moves (Token.Slot u) q l.now env.old result env.new }
{
    let e = reach::end_of(l, u, q)?;
    if env.bind_part(l, u, q.at, e) {
        return Some(State { at: e, ..q });
    }
    None
}

// A number that is `less` above variable v.
fn number_token(l: &[u8], env: &mut Bindings, less: usize, v: usize, q: State) -> Option<State>
    requires { (v < 8) × (q.at ≤ q.end) × (q.end ≤ length l.now) }
    ensures { Moves (Token.Number less v) q l.now env.old result env.new }
{
    if q.end - q.at < formula::DIM {
        return None;
    }
    let n = formula::dim_at(l, q.at);
    if n < less {
        return None;
    }
    if env.bind_number(v, n - less) {
        return Some(State {
            at: q.at + formula::DIM,
            ..q
        });
    }
    None
}

// A byte that must stand there.
fn byte_token(l: &[u8], b: u8, q: State) -> Option<State>
    requires { (q.at ≤ q.end) × (q.end ≤ length l.now) }
    ensures { MovesOnly (Token.Byte b) q l.now result }
{
    if q.end <= q.at {
        return None;
    }
    if l[q.at] != b {
        return None;
    }
    Some(State { at: q.at + 1, ..q })
}

// A context's count, of which k faces stand in front.
fn count_token(l: &[u8], k: usize, q: State) -> Option<State>
    requires { (q.at ≤ q.end) × (q.end ≤ length l.now) }
    ensures { MovesOnly (Token.Front k) q l.now result }
{
    if q.end - q.at < 2 {
        return None;
    }
    let x = usize::from(l[q.at]);
    let y = usize::from(l[q.at + 1]);
    let c = x + 256 * y;
    if c < k {
        return None;
    }
    Some(State {
        at: q.at + 2,
        left: c - k,
        ..q
    })
}

pub(crate) fn one_token(l: &[u8], env: &mut Bindings, t: Token, q: State) -> Option<State>
    requires { Fit t × (q.at ≤ q.end) × (q.end ≤ length l.now) × Possible l.now env.old }
    ensures { Moves t q l.now env.old result env.new }
{
    match t {
        Token::Byte(b) => byte_token(l, b, q),
        Token::Number(less, v) => { number_token(l, env, usize::from(less), usize::from(v), q) }
        Token::Slot(u) => part_token(l, env, usize::from(u), q),
        Token::Front(k) => count_token(l, usize::from(k), q),
        Token::Done if q.left != 0 => None,
        Token::Done | Token::Pad => Some(q),
    }
}
