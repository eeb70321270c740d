// What the variables of a row are bound to.
ghost use Rattle.std.specs.Prelude.{◌+◌, ◌≤◌, ◌<◌, length};
ghost use Rattle.rows.specs.Flattening.{part};
ghost use Rattle.rules.specs.Matching.{bytes, Possible, Binds, BindsNumber, Free};

// A range of the ledger's bytes.
#[derive(Clone, Copy)]
pub(crate) struct Span {
    from: usize,
    to: usize,
}

// The bytes of each slot and the number of each number variable, where they are bound.
#[derive(Clone, Copy)]
pub(crate) struct Bindings {
    parts: [Option<Span>; 24],
    numbers: [Option<usize>; 8],
}

impl Bindings {
    pub(crate) fn none() -> Bindings
        ensures { Free result }
    {
        Bindings {
            parts: [None; 24],
            numbers: [None; 8],
        }
    }

    // Binds the number variable v to n, or compares.
    pub(crate) fn bind_number(&mut self, v: usize, n: usize) -> bool
        requires { v < 8 }
        ensures { BindsNumber self.old (v + 24) n result self.new }
    {
        match self.numbers[v] {
            Some(k) => k == n,
            None => {
                self.numbers[v] = Some(n);
                true
            }
        }
    }

    // Binds slot u to the bytes from a to b, or compares.
    pub(crate) fn bind_part(&mut self, l: &[u8], u: usize, a: usize, b: usize) -> bool
        requires { (u < 24) × (a ≤ b) × (b ≤ length l.now) × Possible l.now self.old }
        ensures { Binds l.now self.old u (bytes (part l.now a b)) result self.new }
    {
        match self.parts[u] {
            Some(s) => l[s.from..s.to] == l[a..b],
            None => {
                self.parts[u] = Some(Span { from: a, to: b });
                true
            }
        }
    }
}
