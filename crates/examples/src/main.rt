// Cases of the functions on formulas and ledgers that no call of the replay shows: standard input has them, each with a label
// and its bytes (tools/examples/cases.py writes them, and what is to be printed). A line or more for each.
#![tactic(auto)]

mod cases;
mod show;

use std::io;
use std::io::{BufReader, BufWriter, Read, Write};

// All cases, at most a thousand.
fn all<R: Read, W: Write>(input: &mut R, out: &mut W, space: &mut [u8]) -> io::Result<()> {
    for _ in 0..1000 {
        let Some(c) = cases::head(input)? else {
            break;
        };
        cases::run(input, out, c, space)?;
    }
    Ok(())
}

fn main(rt: HostRuntime) -> io::Result<()> {
    let mut input = BufReader::new(rt.alloc(), rt.reader())?;
    let mut out = BufWriter::new(rt.alloc(), io::writer(&rt))?;
    let mut space = stdio::room();
    all(&mut input, &mut out, &mut space)?;
    out.flush()
}
