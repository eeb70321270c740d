// One way to come from a step's number to its place: the places of every 16th step, and a walk over at most 15 records.
ghost use Rattle.std.specs.Prelude.{◌≡◌, suc, ◌*◌, ◌<◌, length};
ghost use Rattle.ledger.specs.Ledger.{steps_of, place_of, Led};
ghost use Rattle.ledger.specs.Noting.{Noted, Notes};

use crate::{Cursor, steps};

// Keeps the place of the step if it is a 16th one.
pub fn note(places: &mut [u32], step: usize, at: usize)
    requires { (step < 16 * length places.old) × (at < 4294967296) }
    ensures { Notes step at places.old places.new }
{
    let between = step % 16 != 0;
    if between {
        return;
    }
    places[step / 16] = at as u32;
}

// Step i.
pub fn find_step(l: &[u8], places: &[u32], i: usize) -> Cursor
    requires { Led l.now × (i < length (steps_of l.now)) × Noted (steps_of l.now) (suc i) places.now }
    ensures { (result.step ≡ i) × (result.at ≡ place_of (steps_of l.now) i) }
{
    let k = i / 16;
    let c = Cursor {
        step: 16 * k,
        at: places[k] as usize,
    };
    steps::walk_to(l, c, i)
}
