// Inputs of facesteps and all that it prints for them: standard input has the cases, each a length in decimal on a line, as many
// bytes, and byte 10 (tools/facesteps/cases.py writes them, and what is to be printed). A long output is shown by its length and sum.
#![tactic(auto)]

use std::io;
use std::io::{BufWriter, Write};

fn print_output<W: Write>(out: &mut W, s: &[u8]) -> io::Result<()> {
    if s.len() <= 2000 {
        return out.write_all(s);
    }
    let (a, b) = stdio::adler(s);
    writeln!(out, "length {} sum {a} {b}", s.len())
}

// What facesteps prints for an input.
fn run<W: Write>(out: &mut W, input: &[u8], space: &mut [u8]) -> io::Result<()> {
    match claims::facesteps(input, space) {
        Ok(n) => print_output(out, stdio::first(space, n)),
        Err(_) => writeln!(out, "too long"),
    }
}

// The number on the first line, and what stands behind the line.
fn split_number(s: &[u8]) -> (usize, &[u8]) {
    let mut value: usize = 0;
    for (i, b) in s.iter().enumerate() {
        if *b == b'\n' {
            return (value, &s[i + 1..]);
        }
        value = (value % 1000000) * 10 + usize::from(*b % 48);
    }
    (value, &[])
}

// Runs the first case; what stands behind it.
fn next<'a, W: Write>(out: &mut W, s: &'a [u8], space: &mut [u8]) -> io::Result<&'a [u8]> {
    let (n, rest) = split_number(s);
    if rest.len() < n {
        return Ok(&[]);
    }
    run(out, &rest[..n], space)?;
    Ok(rest.get(n + 1..).unwrap_or(&[]))
}

// All cases, at most a thousand.
fn all<W: Write>(out: &mut W, s: &[u8], space: &mut [u8]) -> io::Result<()> {
    let mut rest = s;
    for i in 1..1000 {
        if rest.is_empty() {
            break;
        }
        writeln!(out, "case {i}")?;
        rest = next(out, rest, space)?;
    }
    Ok(())
}

fn main(rt: HostRuntime) -> io::Result<()> {
    let mut input = stdio::room();
    let n = stdio::fill(&mut rt.reader(), &mut input)?;
    let cases = &input[..n];
    let mut out = BufWriter::new(rt.alloc(), io::writer(&rt))?;
    all(&mut out, cases, &mut [0u8; 65536])?;
    out.flush()
}
