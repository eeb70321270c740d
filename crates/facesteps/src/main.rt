// Reads a claim, one line of standard input, and prints its steps and the answer.
#![tactic(auto)]

ghost use Rattle.std.specs.Prelude.{◌≤◌, length};
ghost use Rattle.ledger.specs.Ledger.{Led};

use std::io;
use std::io::{Read, Write};

// Reads until a line has ended, the input has, a read fails or the space is full; what was read.
fn read_line<'a, R: Read>(input: &mut R, space: &'a mut [u8]) -> &'a [u8]
    ensures { length result.now ≤ length space.old }
{
    let mut n: usize = 0;
    while n < space.len() && !space[..n].contains(&b'\n') {
        match stdio::read_behind(input, space, n) {
            Ok(m) if n < m => n = m,
            _ => break,
        }
    }
    &space[..n]
}

// Prints the lines of all steps, page by page.
fn print_lines<W: Write>(out: &mut W, ledger: &[u8], space: &mut [u8]) -> io::Result<()>
    requires { Led ledger.now × (length ledger.now ≤ 65536) × (2600000 ≤ length space.old) }
{
    let end = ledger::used(ledger);
    let mut step: usize = 0;
    let mut at: usize = 4;
    while at < end {
        let p = claims::next_page(ledger, step, at, space);
        out.write_all(&space[..p.len])?;
        step = p.step;
        at = p.at;
    }
    Ok(())
}

// Asks the claim that the input's first line is, and prints its steps and the answer.
fn run<R: Read, W: Write>(input: &mut R, out: &mut W) -> io::Result<()> {
    let mut line = [0u8; 4097];
    let mut ledger = [0u8; 65536];
    let answer = claims::ask(read_line(input, &mut line), &mut ledger);
    let mut space = stdio::zeros::<2600000>();
    print_lines(out, &ledger, &mut space)?;
    let len = claims::verdict(answer, &mut space, 0);
    out.write_all(&space[..len])
}

fn main(rt: HostRuntime) -> io::Result<()> {
    run(&mut rt.reader(), &mut io::writer(&rt))
}
