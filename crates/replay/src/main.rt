// The stored sample of the published Rust: standard input has lists of calls with its answers (tools/replay/encode.py writes it).
// Each list is asked of the engine from an empty ledger. A line for each difference, then how much was compared.
#![tactic(auto)]

mod input;
mod judge;
mod tally;

use crate::input::{Call, Heading};
use crate::judge::{FILL, Said, made, step};
use crate::tally::Tally;
use formula::Sort;
use std::io;
use std::io::{BufReader, BufWriter, Read, Write};

// One call of the engine; a number that names none asks for a substitution in an interval.
fn ask(l: &mut [u8], h: Heading, a: &[u8], b: &[u8], out: &mut [u8], second: &mut [u8]) -> Said {
    let d = h.number;
    match h.call {
        Some(Call::Face) => step(engine::face(l, d, a)),
        Some(Call::Interval) => step(engine::interval(l, d, a)),
        Some(Call::Boundary) => made(engine::boundary(l, a, out, second)),
        Some(Call::Endpoint) => step(engine::endpoint(l, d, a, b, h.one)),
        Some(Call::Forall) => made(engine::forall(l, a, d, out)),
        Some(Call::FaceShift) => made(engine::shift(l, Sort::Faces, a, d, out)),
        Some(Call::IntervalShift) => made(engine::shift(l, Sort::Intervals, a, d, out)),
        Some(Call::FaceSubstitute) => made(engine::substitute(l, Sort::Faces, a, d, b, out)),
        Some(Call::IntervalSubstitute) | None => made(engine::substitute(
            l,
            Sort::Intervals,
            a,
            d,
            b,
            out,
        )),
        Some(Call::Entails) => step(engine::entails(l, d, a, b)),
    }
}

// The next call; true where answer and outputs are as expected. Operands and outputs are at most 4,096 bytes long.
fn call<R: Read>(input: &mut R, l: &mut [u8], t: &mut Tally) -> io::Result<bool> {
    let h = input::head(input)?;
    let mut first = [0u8; 4096];
    let mut other = [0u8; 4096];
    let a = stdio::read_bytes(input, &mut first, h.operands.0)?;
    let b = stdio::read_bytes(input, &mut other, h.operands.1)?;
    let mut out = [FILL; 4096];
    let mut second = [FILL; 4096];
    let o = stdio::part(&mut out, h.rooms.0);
    let p = stdio::part(&mut second, h.rooms.1);
    let said = ask(l, h, a, b, o, p);
    t.call(h.call, said);
    let one = judge::written(input, h.results.0, o)?;
    let two = judge::written(input, h.results.1, p)?;
    Ok(said == h.expected && one && two)
}

// So many calls of a list; a line for each that differs.
fn calls<R: Read, W: Write>(
    input: &mut R,
    out: &mut W,
    l: &mut [u8],
    list: usize,
    count: usize,
    t: &mut Tally,
) -> io::Result<()> {
    for i in 0..count {
        if !call(input, l, t)? {
            t.difference();
            writeln!(out, "list {list}: call {} differs", i + 1)?;
        }
    }
    Ok(())
}

// A list on a ledger of zeros as long as the slice.
fn list<R: Read, W: Write>(
    input: &mut R,
    out: &mut W,
    l: &mut [u8],
    n: usize,
    t: &mut Tally,
) -> io::Result<()> {
    l.fill(0);
    t.list();
    let count = stdio::read_number(input)?;
    let used = stdio::read_number(input)?;
    let sums = stdio::read_pair(input)?;
    calls(input, out, l, n, count, t)?;
    let whole = judge::given(input, l)?;
    if !(whole && judge::ledger(l, used, sums)) {
        t.difference();
        writeln!(out, "list {n}: the ledger differs")?;
    }
    Ok(())
}

// All lists, at most a thousand, each behind its number and the length of its ledger, until there is none or no room for it.
fn lists<R: Read, W: Write>(
    input: &mut R,
    out: &mut W,
    space: &mut [u8],
    t: &mut Tally,
) -> io::Result<()> {
    for _ in 0..1000 {
        let n = stdio::read_number(input)?;
        let len = stdio::read_number(input)?;
        if n == 0 || space.len() < len {
            break;
        }
        list(input, out, &mut space[..len], n, t)?;
    }
    Ok(())
}

fn main(rt: HostRuntime) -> io::Result<()> {
    let mut input = BufReader::new(rt.alloc(), rt.reader())?;
    let mut out = BufWriter::new(rt.alloc(), io::writer(&rt))?;
    let mut space = stdio::room();
    let mut t = Tally::new();
    lists(&mut input, &mut out, &mut space, &mut t)?;
    t.report(&mut out)?;
    out.flush()
}
