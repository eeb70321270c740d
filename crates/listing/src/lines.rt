// Lines: NUMBER RULE [REFERENCES] JUDGEMENT.
ghost use Rattle.std.specs.Prelude.{◌≡◌, ◌<◌, length};
ghost use Rattle.ledger.specs.Ledger.{steps_of, Led};
ghost use Rattle.text.specs.Wholes.{Delivers};
ghost use Rattle.writing.specs.Writing.{Room, Writes};
ghost use Rattle.listing.specs.Lines.{references_text, head_text, line_text};
ghost use Rattle.listing.specs.Answers.{WritesStep};
ghost use Rattle.listing.specs.Writing.{comma_text, step_of, Shows};

use crate::judgements;
use ledger::Cursor;
use refusals::Refusal;
use writing::Writer;

// Writes the comma in front of reference j; none stands in front of the first.
fn comma(j: usize, w: &mut Writer)
    requires { Room w.old.to (comma_text j) }
    ensures { Writes (comma_text j) w.old w.new }
{
    if j == 0 {
        return;
    }
    w.put_byte(b',');
}

// Writes the references of a step.
fn references(l: &[u8], c: Cursor, w: &mut Writer)
    requires { Shows l.now c.step c.at (λ s. references_text s.references) w.old.to }
    ensures { Writes (references_text (step_of l.now c.step).references) w.old w.new }
{
    let entry = c.entry(l);
    for j in 0..entry.references {
        comma(j, w);
        w.decimal(c.reference(l, j));
    }
}

// Writes what stands before the judgement of a step.
fn head(l: &[u8], c: Cursor, w: &mut Writer)
    requires { Shows l.now c.step c.at (head_text c.step) w.old.to }
    ensures { Writes (head_text c.step (step_of l.now c.step)) w.old w.new }
{
    w.decimal(c.step);
    w.put_byte(b' ');
    w.put(kinds::name_of(c.kind(l)));
    w.put(b" [");
    references(l, c, w);
    w.put(b"] ");
}

// Writes the line of a step.
pub fn line(l: &[u8], c: Cursor, w: &mut Writer)
    requires { Shows l.now c.step c.at (line_text c.step) w.old.to }
    ensures { Writes (line_text c.step (step_of l.now c.step)) w.old w.new }
{
    head(l, c, w);
    judgements::judgement(l, c, w);
    w.put_byte(b'\n');
}

// Writes the line of step i, which the ledger has, where it fits.
fn sized(l: &[u8], i: usize, out: &mut [u8]) -> Result<usize, Refusal>
    requires { Led l.now × (i < length (steps_of l.now)) }
    ensures { Delivers (line_text i (step_of l.now i)) out.old result out.new }
{
    let c = ledger::seek(l, i);
    let mut none = [0u8; 0];
    let mut measure = Writer {
        out: &mut none,
        to: 0,
    };
    line(l, c, &mut measure);
    if out.len() < measure.to {
        return Err(Refusal::ShortOutput);
    }
    let mut w = Writer { out, to: 0 };
    line(l, c, &mut w);
    Ok(w.to)
}

// Writes the line of step i of a ledger, where it fits; nothing past its end.
pub fn write_step(l: &[u8], i: usize, out: &mut [u8]) -> Result<usize, Refusal>
    ensures { WritesStep l.now i out.old result out.new }
{
    let n = ledger::well_formed(l)?;
    if n <= i {
        return Ok(0);
    }
    sized(l, i, out)
}
