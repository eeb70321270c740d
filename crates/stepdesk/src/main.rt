// Says what the step desk answers of the ledgers in the files named, or of the one on standard input.
#![tactic(auto)]

use desk::Verdict;
use std::env::Env;
use std::fs::Files;
use std::io;
use std::io::Write;

// The line for what was read.
fn tell<W: Write>(out: &mut W, ledger: io::Result<&[u8]>) -> io::Result<()> {
    let Ok(l) = ledger else {
        return writeln!(out, "cannot be read");
    };
    match desk::step_desk(l) {
        Verdict::Ill => writeln!(out, "refused 1"),
        Verdict::Fails(n) => writeln!(out, "refused 10 at {n}"),
        Verdict::Passes(n) => writeln!(out, "passed {n}"),
    }
}

// A line for each file, with its name in front where there are several; the arguments behind the program's own name are files.
fn tell_files<R: Env + Files, W: Write>(
    rt: &R,
    out: &mut W,
    count: usize,
    space: &mut [u8],
) -> io::Result<()> {
    for i in 1..count {
        if 2 < count {
            files::print_name(rt, i, out)?;
            write!(out, ": ")?;
        }
        tell(out, files::read(rt, i, space))?;
    }
    Ok(())
}

fn main(rt: HostRuntime) -> io::Result<()> {
    let mut space = stdio::room();
    let mut out = io::writer(&rt);
    let count = files::arg_count(&rt);
    if count < 2 {
        let read = stdio::fill(&mut rt.reader(), &mut space);
        return tell(&mut out, read.map(|n| &space[..n]));
    }
    tell_files(&rt, &mut out, count, &mut space)
}
