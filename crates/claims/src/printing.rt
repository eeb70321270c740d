// The lines of a ledger and the answer.
ghost use Rattle.std.specs.Prelude.{[], ◌∷◌, ◌++◌, ◌≡◌, ◌≤◌, length};
ghost use Rattle.ledger.specs.Ledger.{steps_of, Led};
ghost use Rattle.replies.specs.Replying.{said};
ghost use Rattle.writing.specs.Texts.{decimal_text};
ghost use Rattle.writing.specs.Writing.{Room, Wrote, Writes};
ghost use Rattle.claims.specs.Facesteps.{lines_from, verdict_text, PrintsInto};
ghost use Rattle.claims.specs.Printing.{listed, Among, Pages};

use crate::{Page, asking};
use ledger::Cursor;
use refusals::Refusal;
use writing::Writer;

// Writes the lines of all steps.
fn lines(l: &[u8], w: &mut Writer)
    requires { Led l.now × (w.old.to ≡ 0) }
    ensures { Writes (lines_from 0 (steps_of l.now)) w.old w.new }
{
    let end = ledger::used(l);
    let mut c = Cursor::start();
    while c.at < end {
        listing::line(l, c, w);
        c = c.next(l);
    }
}

// Writes the words, a number, and the end of the line.
fn ending(words: &[u8], n: usize, w: &mut Writer)
    requires { Room w.old.to (words.now ++ (decimal_text n ++ (10 ∷ []))) }
    ensures { Writes (words.now ++ (decimal_text n ++ (10 ∷ []))) w.old w.new }
{
    w.put(words);
    w.decimal(n);
    w.put_byte(b'\n');
}

// Writes the last line.
fn last_line(a: Result<usize, Refusal>, w: &mut Writer)
    requires { Room w.old.to (verdict_text (said a)) }
    ensures { Writes (verdict_text (said a)) w.old w.new }
{
    match a {
        Ok(n) => ending(b"yes ", n, w),
        Err(e) => ending(b"refused ", refusals::number(e), w),
    }
}

// Writes the last line from a place of an output on; the place behind it.
pub fn verdict(a: Result<usize, Refusal>, out: &mut [u8], to: usize) -> usize
    requires { Room to (verdict_text (said a)) }
    ensures { Wrote (verdict_text (said a)) out.old to result out.new }
{
    let mut w = Writer { out, to };
    last_line(a, &mut w);
    w.to
}

// Writes the lines of all steps, and the last line.
fn whole(l: &[u8], a: Result<usize, Refusal>, w: &mut Writer)
    requires { Led l.now × (w.old.to ≡ 0) × Room w.old.to (listed l.now a) }
    ensures { Writes (listed l.now a) w.old w.new }
{
    lines(l, w);
    last_line(a, w);
}

// All that the program prints for an input, where it fits.
pub fn facesteps(input: &[u8], out: &mut [u8]) -> Result<usize, Refusal>
    ensures { PrintsInto input.now out.old result out.new }
{
    let mut ledger = [0u8; 65536];
    let a = asking::ask(input, &mut ledger);
    let mut none = [0u8; 0];
    let mut measure = Writer {
        out: &mut none,
        to: 0,
    };
    whole(&ledger, a, &mut measure);
    if out.len() < measure.to {
        return Err(Refusal::ShortOutput);
    }
    let mut w = Writer { out, to: 0 };
    whole(&ledger, a, &mut w);
    Ok(w.to)
}

// Writes the lines from a step on until they take 65,536 bytes or more, or none is left. A line of a ledger of 65,536 bytes takes
// fewer than 2,500,000.
pub fn next_page(l: &[u8], step: usize, at: usize, out: &mut [u8]) -> Page
    requires { Among l.now step at × (length l.now ≤ 65536) × (2600000 ≤ length out.old) }
    ensures { Pages l.now step out.old result out.new }
{
    let end = ledger::used(l);
    let mut w = Writer { out, to: 0 };
    let mut c = Cursor { step, at };
    while c.at < end {
        if 65536 <= w.to {
            break;
        }
        listing::line(l, c, &mut w);
        c = c.next(l);
    }
    Page {
        step: c.step,
        at: c.at,
        len: w.to,
    }
}
