// How many clauses and nodes there may be.
ghost use Rattle.std.specs.Prelude.{◌≡◌, ltb};
ghost use Rattle.formula.specs.Bytes.{max_nodes};
ghost use Rattle.clauses.specs.Normal.{max_clauses};

// Are they more clauses than a list may have before it is pruned?
pub fn over(n: usize) -> bool
    ensures { result ≡ ltb max_clauses n }
{
    256 < n
}

// Are they more nodes than a formula may have?
pub fn large(n: usize) -> bool
    ensures { result ≡ ltb max_nodes n }
{
    511 < n
}
