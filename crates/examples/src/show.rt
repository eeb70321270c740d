// Answers as text.
use formula::{Advance, Place, Size, Sort};
use refusals::Refusal;
use std::io;
use std::io::Write;

pub fn yes_no<W: Write>(out: &mut W, is_so: bool) -> io::Result<()> {
    writeln!(out, "{}", if is_so { " yes" } else { " no" })
}

// Bytes behind a colon.
pub fn part<W: Write>(out: &mut W, b: &[u8]) -> io::Result<()> {
    write!(out, ":")?;
    stdio::bytes(out, b)
}

pub fn line<W: Write>(out: &mut W, b: &[u8]) -> io::Result<()> {
    part(out, b)?;
    writeln!(out)
}

// A word only where the bytes did not fit.
pub fn put<W: Write>(out: &mut W, fits: bool) -> io::Result<()> {
    if fits {
        return Ok(());
    }
    write!(out, " no room")
}

fn size<W: Write>(out: &mut W, word: &str, z: Size) -> io::Result<()> {
    write!(
        out,
        "{word} bytes {} nodes {} bound {}",
        z.len, z.nodes, z.bound
    )
}

fn answer<W: Write>(out: &mut W, word: &str, x: Result<Size, Refusal>) -> io::Result<()> {
    match x {
        Ok(z) => size(out, word, z),
        Err(e) => write!(out, "refused {}", refusals::number(e)),
    }
}

pub fn measured<W: Write>(out: &mut W, m: Result<Size, Refusal>) -> io::Result<()> {
    match m {
        Ok(z) => size(out, " formula", z)?,
        Err(_) => write!(out, " ill")?,
    }
    writeln!(out)
}

pub fn sized<W: Write>(out: &mut W, x: Result<Size, Refusal>) -> io::Result<()> {
    write!(out, " ")?;
    answer(out, "fits", x)
}

// An answer, and all bytes of the lent slice.
pub fn written<W: Write>(out: &mut W, x: Result<Size, Refusal>, lent: &[u8]) -> io::Result<()> {
    write!(out, "; ")?;
    answer(out, "done", x)?;
    line(out, lent)
}

pub fn checked<W: Write>(out: &mut W, x: Result<usize, Refusal>) -> io::Result<()> {
    match x {
        Ok(n) => write!(out, " steps {n}"),
        Err(_) => write!(out, " no ledger"),
    }
}

// One step, on a line of its own; the place behind it, or the same place where it leads nowhere.
pub fn step<W: Write>(out: &mut W, p: Place, sort: Sort, s: &[u8]) -> io::Result<Place> {
    let q = match p.step(sort, s) {
        Advance::Leaf(q) => {
            write!(out, " leaf")?;
            q
        }
        Advance::Lit(q, n) => {
            write!(out, " literal {n}")?;
            q
        }
        Advance::One(q) => {
            write!(out, " one")?;
            q
        }
        Advance::Two(q) => {
            write!(out, " two")?;
            q
        }
        Advance::Stuck => {
            write!(out, " stuck")?;
            p
        }
    };
    writeln!(out, " to {} with {} pending", q.at, q.pending)?;
    Ok(q)
}
