// Formulas: their text from their bytes, in one pass over both.
ghost use Rattle.std.specs.Prelude.{◌≡◌, [], ◌∷◌, ◌≤◌, ◌<◌, length, get_or};
ghost use Rattle.formula.specs.Answers.{kind_of};
ghost use Rattle.formula.specs.declared.Kind.TheVariants.{Literal};
ghost use Rattle.writing.specs.Writing.{Room, Writes, node_name, Names, opened, FormulaFronts, FormulaWrites, Delivered};
ghost use Rattle.writing.specs.Answers.{WritesInto};

use crate::Writer;
use formula::{Kind, Sort};
use refusals::Refusal;

impl Writer<'_> {
    // Writes the name of a node.
    fn put_name(&mut self, sort: Sort, kind: u8)
        requires { Names sort kind × Room self.old.to (node_name sort kind) }
        ensures { Writes (node_name sort kind) self.old self.new }
    {
        let names = text::names(sort);
        let place = usize::from(kind - text::first_kind(sort));
        self.put(names[place]);
    }

    // Opens the list of a node: its name and a space.
    fn begin(&mut self, sort: Sort, kind: u8)
        requires { Names sort kind × Room self.old.to (opened sort kind) }
        ensures { Writes (opened sort kind) self.old self.new }
    {
        self.put_byte(b'(');
        self.put_name(sort, kind);
        self.put_byte(b' ');
    }

    // Writes the literal in front of f; how many bytes it takes there.
    fn literal(&mut self, sort: Sort, f: &[u8]) -> usize
        requires { FormulaFronts sort f.now self.old.to × (kind_of sort (get_or f.now 0 0) ≡ Literal) }
        ensures { FormulaWrites sort f.now self.old result self.new }
    {
        self.begin(sort, f[0]);
        let n = formula::dim_at(f, 1);
        self.unary(n);
        self.put_byte(b')');
        1 + formula::DIM
    }

    // Writes the formula in front of f; how many bytes it takes there.
    pub fn formula(&mut self, sort: Sort, f: &[u8]) -> usize
        requires { FormulaFronts sort f.now self.old.to }
        ensures { FormulaWrites sort f.now self.old result self.new }
    {
        let kind = f[0];
        match formula::kind_of(sort, kind) {
            Kind::Nullary => {
                self.put_name(sort, kind);
                1
            }
            Kind::Literal => self.literal(sort, f),
            Kind::Unary => {
                self.begin(sort, kind);
                let n = self.formula(sort, &f[1..]);
                self.put_byte(b')');
                1 + n
            }
            Kind::Binary => {
                self.begin(sort, kind);
                let m = 1 + self.formula(sort, &f[1..]);
                self.put_byte(b' ');
                let n = self.formula(sort, &f[m..]);
                self.put_byte(b')');
                m + n
            }
            Kind::Unknown => 0,
        }
    }
}

// Writes the text of a formula, once it is known to keep the limits, where it fits.
fn sized(sort: Sort, f: &[u8], out: &mut [u8]) -> Result<usize, Refusal>
    requires { FormulaFronts sort f.now 0 }
    ensures { Delivered sort f.now out.old result out.new }
{
    let mut none = [0u8; 0];
    let mut measure = Writer {
        out: &mut none,
        to: 0,
    };
    measure.formula(sort, f);
    let short = out.len() < measure.to;
    if short {
        return Err(Refusal::ShortOutput);
    }
    let mut w = Writer { out, to: 0 };
    w.formula(sort, f);
    Ok(w.to)
}

// Writes the text of the formula that the bytes are.
pub fn write_formula(sort: Sort, f: &[u8], out: &mut [u8]) -> Result<usize, Refusal>
    ensures { WritesInto sort f.now out.old result out.new }
{
    formula::operand(sort, f)?;
    sized(sort, f, out)
}
