// The nodes and the bytes of a normal form, from clauses as bits.
#![tactic(auto)]

ghost use Rattle.std.specs.Prelude.{◌≡◌, ◌+◌, ◌/◌, ◌<◌, ◌≤◌, length, replicate};
ghost use Rattle.formula.specs.Bytes.{encode_face};
ghost use Rattle.formula.specs.Answers.{dim_space};
ghost use Rattle.clauses.specs.Normal.{literal};
ghost use Rattle.clauses.specs.Shape.{All};
ghost use Rattle.clauses.specs.Words.{bits, count, select};
ghost use Rattle.forms.specs.Forms.{weight_of, literals_bytes, clause_form, Wrote};

use clauses::Clause;

// The nodes of the conjunction of a clause's literals.
pub fn weight(c: Clause) -> usize
    ensures { result ≡ weight_of c }
{
    let m = clauses::ones(c);
    if m == 0 {
        return 1;
    }
    2 * m - 1
}

// Writes a byte n times from `to` on; the place behind.
pub fn put_times(b: u8, n: usize, out: &mut [u8], to: usize) -> usize
    requires { to + n ≤ length out.old }
    ensures { Wrote out.old to (replicate n b) result out.new }
{
    let end = to + n;
    out[to..end].fill(b);
    end
}

// Writes the literal of a number; the place behind.
fn put_literal(k: usize, out: &mut [u8], to: usize) -> usize
    requires k_bound { k / 2 < dim_space }
    requires k_in_bounds { to + length (encode_face (literal k)) ≤ length out.old }
    ensures { Wrote out.old to (encode_face (literal k)) result out.new }
{
    out[to] = formula::literal_kind((k % 2) as u8);
    formula::put_dim(out, to + 1, k / 2);
    to + 1 + formula::DIM
}

// Writes the literals of a clause in order; the place behind. Counting what is left ends the loop at the last literal, which
// is mostly one of the first ranks.
fn put_literals(c: Clause, many: usize, numbers: &[usize], out: &mut [u8], to: usize) -> usize
    requires many_value { many ≡ count (bits c) }
    requires numbers_len { length numbers.now ≡ 256 }
    requires all { All (λ k. k / 2 < dim_space) (select numbers.now (bits c)) }
    requires c_in_bounds { to + length (literals_bytes (select numbers.now (bits c))) ≤ length out.old }
    ensures { Wrote out.old to (literals_bytes (select numbers.now (bits c))) result out.new }
{
    let mut at = to;
    let mut left = many;
    let mut rank = 0;
    while left > 0 {
        if clauses::has(c, rank) {
            at = put_literal(numbers[rank], out, at);
            left -= 1;
        }
        rank += 1;
    }
    at
}

// Writes the conjunction of a clause's literals: its fand bytes, then the literals; the place behind.
pub fn put_clause(c: Clause, numbers: &[usize], out: &mut [u8], to: usize) -> usize
    requires numbers_len { length numbers.now ≡ 256 }
    requires all { All (λ k. k / 2 < dim_space) (select numbers.now (bits c)) }
    requires c_in_bounds { to + length (clause_form numbers.now c) ≤ length out.old }
    ensures { Wrote out.old to (clause_form numbers.now c) result out.new }
{
    let many = clauses::ones(c);
    if many == 0 {
        return put_times(1, 1, out, to);
    }
    let at = put_times(4, many - 1, out, to);
    put_literals(c, many, numbers, out, at)
}
