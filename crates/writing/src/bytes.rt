// Bytes at the place of a writer, as far as its output reaches.
ghost use Rattle.std.specs.Prelude.{[], ◌∷◌};
ghost use Rattle.writing.specs.Writing.{Room, Writes, times};

use crate::Writer;

impl Writer<'_> {
    // Writes x.
    pub fn put(&mut self, x: &[u8])
        requires { Room self.old.to x.now }
        ensures { Writes x.now self.old self.new }
    {
        let to = self.to;
        self.to = to + x.len();
        if self.out.len() <= to {
            return;
        }
        let fits = x.len().min(self.out.len() - to);
        formula::copy(&x[..fits], self.out, to);
    }

    // Writes one byte.
    pub fn put_byte(&mut self, b: u8)
        requires { Room self.old.to (b ∷ []) }
        ensures { Writes (b ∷ []) self.old self.new }
    {
        let to = self.to;
        self.to = to + 1;
        if to < self.out.len() {
            self.out[to] = b;
        }
    }

    // Writes x so many times.
    pub(crate) fn put_times(&mut self, x: &[u8], n: usize)
        requires { Room self.old.to (times n x.now) }
        ensures { Writes (times n x.now) self.old self.new }
    {
        for i in 0..n {
            self.put(x);
        }
    }
}
