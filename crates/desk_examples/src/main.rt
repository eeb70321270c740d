// Damaged ledgers: standard input has ledgers that the Rust made, each with a list of damages, a place and a new byte for it.
// The step desk is asked about the ledger and about each copy with one byte changed. tools/desk/damage.py writes the input.
#![tactic(auto)]

use desk::Verdict;
use std::io::{BufReader, BufWriter, Read, Write};
use std::{io, mem};

// `1` for refusal 1, `@N` for refusal 10 at step N, `pN` for N steps passed.
fn tell<W: Write>(out: &mut W, v: Verdict) -> io::Result<()> {
    match v {
        Verdict::Ill => write!(out, "1"),
        Verdict::Fails(n) => write!(out, "@{n}"),
        Verdict::Passes(n) => write!(out, "p{n}"),
    }
}

// The desk's answer with the byte at a place changed; the byte is put back.
fn damaged<W: Write>(out: &mut W, l: &mut [u8], at: usize, byte: u8) -> io::Result<()> {
    if l.len() <= at {
        return write!(out, "?");
    }
    let old = mem::replace(&mut l[at], byte);
    let v = desk::step_desk(l);
    l[at] = old;
    tell(out, v)
}

// So many damages of the ledger, sixteen answers to a line. A damage has a place of three bytes, the lowest first, and the
// new byte behind it.
fn damages<R: Read, W: Write>(
    input: &mut R,
    out: &mut W,
    l: &mut [u8],
    count: usize,
) -> io::Result<()> {
    for i in 0..count {
        write!(out, "{}", if i % 16 == 0 { "\n " } else { " " })?;
        let [a, b, c, byte] = stdio::word(input)?;
        let at = u32::from_le_bytes([a, b, c, 0]);
        damaged(out, l, at as usize, byte)?;
    }
    writeln!(out)
}

// A ledger as long as the slice, and its damages.
fn ledger<R: Read, W: Write>(input: &mut R, out: &mut W, l: &mut [u8]) -> io::Result<()> {
    stdio::fill(input, l)?;
    tell(out, desk::step_desk(l))?;
    let count = stdio::read_number(input)?;
    damages(input, out, l, count)
}

// All ledgers, each behind its length, at most a thousand, until there is none or no room for it.
fn ledgers<R: Read, W: Write>(input: &mut R, out: &mut W, space: &mut [u8]) -> io::Result<()> {
    for _ in 0..1000 {
        let n = stdio::read_number(input)?;
        if n == 0 || space.len() < n {
            break;
        }
        ledger(input, out, &mut space[..n])?;
    }
    Ok(())
}

fn main(rt: HostRuntime) -> io::Result<()> {
    let mut input = BufReader::new(rt.alloc(), rt.reader())?;
    let mut out = BufWriter::new(rt.alloc(), io::writer(&rt))?;
    let mut space = [0u8; 65536];
    ledgers(&mut input, &mut out, &mut space)?;
    out.flush()
}
