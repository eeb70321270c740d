// Rows of numbers, in which a literal has its rank.
ghost use Rattle.std.specs.Prelude.{◌≡◌, true, false, [], ◌∷◌, ◌<◌, eqb, length, replicate};
ghost use Rattle.std.proofs.lemmas.List.Edits.{sets};
ghost use Rattle.formula.specs.Answers.{pick};
ghost use Rattle.clauses.specs.Normal.{opposite as opposite_of};
ghost use Rattle.clauses.specs.Words.{bits, adjacent};
ghost use Rattle.literals.specs.Numbers.{blanks, position};

use clauses::Clause;

// Numbers that no literal has: above all of theirs, and even, so that none is the opposite of another.
pub fn blank() -> [usize; 256]
    ensures { result ≡ blanks }
{
    let mut numbers = [0usize; 256];
    for i in 0..256 {
        numbers[i] = 65536 + 2 * i;
    }
    numbers
}

// The first place of a number, or the length where it is nowhere.
pub fn rank(numbers: &[usize], k: usize) -> usize
    ensures { result ≡ position k numbers.now }
{
    numbers
        .iter()
        .position(|n| *n == k)
        .unwrap_or(numbers.len())
}

// The literal at the other end of the same dimension.
fn opposite(k: usize) -> usize
    ensures { result ≡ opposite_of k }
{
    let even = k % 2 == 0;
    if even {
        return k + 1;
    }
    k - 1
}

// A clause with one literal more, where the next number is the opposite of its number.
fn marked(c: Clause, rank: usize, k: usize, next: usize) -> Clause
    requires { rank < 256 }
    ensures { bits result ≡ pick (eqb (opposite_of k) next) (sets (bits c) rank (true ∷ [])) (bits c) }
{
    if opposite(k) == next {
        return clauses::with(c, rank);
    }
    c
}

// The literals of a row whose opposite is the next one.
pub fn mask(numbers: &[usize]) -> Clause
    requires { length numbers.now ≡ 256 }
    ensures { bits result ≡ adjacent numbers.now }
{
    let mut c = clauses::none();
    for i in 0..255 {
        c = marked(c, i, numbers[i], numbers[i + 1]);
    }
    c
}
