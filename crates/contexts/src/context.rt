// A context: a count, and the bytes of so many faces.
ghost use Rattle.contexts.specs.Contexts.{Sound};

use formula::Sort;

#[derive(Clone, Copy)]
pub struct Context<'a> {
    pub count: usize,
    pub faces: &'a [u8],
    pub ghost sound: { Sound count faces.now },
}

impl<'a> Context<'a> {
    ghost use Rattle.std.specs.Prelude.{◌≡◌};
    ghost use Rattle.calculus.specs.Record.{little_endian};
    ghost use Rattle.contexts.specs.Faces.{Splits};

    // The two bytes of the count.
    pub fn count_field(self) -> [u8; 2]
        ensures { result ≡ little_endian 2 self.entry.count }
    {
        [(self.count % 256) as u8, (self.count / 256) as u8]
    }

    // The bytes of the first face, and the context of the others.
    pub fn split_first(self) -> Option<(&'a [u8], Context<'a>)>
        ensures { Splits self.entry result }
    {
        if self.count == 0 {
            return None;
        }
        let first = formula::formula_at(Sort::Faces, self.faces, 0);
        let others = Context {
            count: self.count - 1,
            faces: &self.faces[first.len()..],
        };
        Some((first, others))
    }
}
