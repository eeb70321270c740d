// Whether bytes are the body of a record.
ghost use Rattle.std.specs.Prelude.{◌≡◌};
ghost use Rattle.calculus.specs.Parse.{read_body};
ghost use Rattle.records.specs.Places.{ended};
ghost use Rattle.records.specs.Bodies.{readable};

use crate::{fields, numbers};

// Behind what is read off the front as the body of step i.
fn body_end(s: &[u8], i: usize) -> Option<usize>
    ensures { result ≡ ended s.now (read_body i s.now) }
{
    if s.len() < 2 {
        return None;
    }
    let kind = kinds::entry_of(numbers::get2(s, 0))?;
    let at = fields::references_end(s, 2, kind.references, i)?;
    fields::values_end(s, at, kind.predicate)
}

// Whether the bytes are what follows the length in the record of step i.
pub fn body_fits(s: &[u8], i: usize) -> bool
    ensures { result ≡ readable (read_body i s.now) }
{
    let Some(e) = body_end(s, i) else {
        return false;
    };
    e == s.len()
}
