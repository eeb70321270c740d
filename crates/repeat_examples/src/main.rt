// The repeat test on pairs of ledgers. tools/repeats/cases.py writes the input, and says what is to be printed.
#![tactic(auto)]

ghost use Rattle.std.specs.Prelude.{◌≤◌, length, IfOk};

use refusals::Refusal;
use std::io;
use std::io::{BufReader, BufWriter, Read, Write};

// The next ledger, with so many zeros behind its bytes; nothing where it has no room.
fn read_ledger<'a, R: Read>(input: &mut R, space: &'a mut [u8]) -> io::Result<&'a [u8]>
    ensures { IfOk result (λ r. length r.now ≤ length space.old) }
{
    let n = stdio::read_number(input)?;
    let zeros = stdio::read_number(input)?;
    stdio::read_bytes(input, space, n)?;
    Ok(stdio::first(space, n.saturating_add(zeros)))
}

// Reads the name of a case and prints it.
fn name<R: Read, W: Write>(input: &mut R, out: &mut W) -> io::Result<()> {
    let mut space = [0u8; 4096];
    let n = stdio::read_number(input)?;
    out.write_all(stdio::read_bytes(input, &mut space, n)?)?;
    write!(out, ": ")
}

fn tell<W: Write>(out: &mut W, repeats: Result<bool, Refusal>) -> io::Result<()> {
    match repeats {
        Ok(true) => writeln!(out, "repeats"),
        Ok(false) => writeln!(out, "fresh"),
        Err(e) => writeln!(out, "refused {}", refusals::number(e)),
    }
}

fn case<R: Read, W: Write>(input: &mut R, out: &mut W) -> io::Result<()> {
    name(input, out)?;
    let mut first = stdio::room();
    let mut second = stdio::room();
    let l = read_ledger(input, &mut first)?;
    let m = read_ledger(input, &mut second)?;
    tell(out, repeat_test::repeats(l, m))
}

fn main(rt: HostRuntime) -> io::Result<()> {
    let mut input = BufReader::new(rt.alloc(), rt.reader())?;
    let mut out = BufWriter::new(rt.alloc(), io::writer(&rt))?;
    let count = stdio::read_number(&mut input)?;
    for _ in 0..count {
        case(&mut input, &mut out)?;
    }
    out.flush()
}
