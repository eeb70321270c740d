// The search: one literal is chosen, and then given up.
ghost use Rattle.std.specs.Prelude.{◌≡◌, None};
ghost use Rattle.counterexample.specs.Exploring.{Ready, Explores};

use crate::states;
use needs::MarkedFace;

// The best assignment so far, and how many dimensions it determines; without that number there is none yet.
#[derive(Drop)]
pub struct Best<'a> {
    pub bytes: &'a mut [u8],
    pub count: Option<usize>,
}

// Puts the best of what a state allows in the place of the best so far. Nothing is gone through that can't beat that one, or
// where the second face holds already.
pub fn explore(
    left: &MarkedFace,
    right: &MarkedFace,
    state: &mut [u8],
    chosen: usize,
    best: &mut Best,
)
    requires { Ready left.now.face.now right.now.face.now state.old chosen best.old.bytes.now best.old.count }
    ensures explores { Explores left.now.face.now right.now.face.now state.old best.old.count best.old.bytes.now best.new.count state.new best.new.bytes.now }
    ensures same_reference { best.new.bytes.ghost_name ≡ best.old.bytes.ghost_name }
{
    let need = needs::weigh(left, 0, state);
    let total = chosen + need.weight;
    if states::hopeless(state, best, need.weight, total) {
        return;
    }
    let goal = needs::weigh(right, 0, state);
    if goal.weight == 0 {
        return;
    }
    if need.weight == 0 {
        states::settle(state, best.bytes);
        best.count = Some(chosen);
        return;
    }
    let n = need.dim;
    let old = state[n];
    state[n] = need.side;
    explore(left, right, state, chosen + 1, best);
    state[n] = states::without(old, need.side);
    explore(left, right, state, chosen, best);
    state[n] = old;
}

// Puts the least assignment that a state allows into a slice; how many dimensions it determines, where there is one.
pub fn least(
    left: &MarkedFace,
    right: &MarkedFace,
    state: &mut [u8],
    out: &mut [u8],
) -> Option<usize>
    requires { Ready left.now.face.now right.now.face.now state.old 0 out.old None }
    ensures { Explores left.now.face.now right.now.face.now state.old None out.old result state.new out.new }
{
    let mut best = Best {
        bytes: out,
        count: None,
    };
    explore(left, right, state, 0, &mut best);
    best.count
}
