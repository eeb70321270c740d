// States beside the best assignment so far.
ghost use Rattle.std.specs.Prelude.{◌≡◌, ◌≤◌, length};
ghost use Rattle.needs.specs.States.{settled as settled_of};
ghost use Rattle.counterexample.specs.Exploring.{lowest as lowest_of, spent as spent_of, precedes, hopeless as hopeless_of, without as without_of};

use crate::explore::Best;

// The first byte that a state's byte allows, where k more dimensions may be determined.
fn lowest(k: usize, s: u8) -> u8
    ensures { result ≡ lowest_of k s }
{
    match s {
        0 | 1 => s,
        _ if k == 0 => 2,
        3 => 1,
        5 => 2,
        _ => 0,
    }
}

// How many more may be determined behind it.
fn spent(k: usize, s: u8) -> usize
    ensures { result ≡ spent_of k s }
{
    if 2 <= s && lowest(k, s) < 2 { k - 1 } else { k }
}

// Whether the first assignment that the state allows, with k more dimensions determined, comes before the best so far.
fn before(state: &[u8], best: &[u8], k: usize) -> bool
    requires { length best.now ≡ length state.now }
    ensures { result ≡ precedes k state.now best.now }
{
    let mut left = k;
    for (s, b) in state.iter().zip(best) {
        let v = lowest(left, *s);
        if v < *b {
            return true;
        }
        if *b < v {
            return false;
        }
        left = spent(left, *s);
    }
    false
}

// Whether no assignment that the state allows beats the best so far: each determines `total` dimensions or more, k more
// than the state has chosen.
pub fn hopeless(state: &[u8], best: &Best, k: usize, total: usize) -> bool
    requires { length best.now.bytes.now ≡ length state.now }
    ensures { result ≡ hopeless_of state.now best.now.bytes.now k total best.now.count }
{
    match best.count {
        None => state.len() < total,
        Some(c) => {
            let fewer = total < c;
            !fewer && (c < total || !before(state, best.bytes, k))
        }
    }
}

// A state's byte where a side is no longer allowed.
pub fn without(s: u8, side: u8) -> u8
    requires { side ≤ 1 }
    ensures { result ≡ without_of s side }
{
    if s == 2 { 3 + side } else { 5 }
}

// Writes the assignment that determines only what the state has chosen.
pub fn settle(state: &[u8], best: &mut [u8])
    requires { length best.old ≡ length state.now }
    ensures { best.new ≡ settled_of state.now }
{
    for i in 0..state.len() {
        best[i] = state[i].min(2);
    }
}
