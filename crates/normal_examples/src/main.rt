// Normal forms of faces. tools/normal/cases.py writes the input, and says what is to be printed.
#![tactic(auto)]

use formula::Size;
use refusals::Refusal;
use std::io;
use std::io::{BufReader, BufWriter, Read, Write};

fn tell<W: Write>(out: &mut W, form: Result<Size, Refusal>) -> io::Result<()> {
    match form {
        Ok(z) => write!(out, " length {}:", z.len),
        Err(e) => write!(out, " refused {}:", refusals::number(e)),
    }
}

// A case whose label has n bytes: the face, what is answered, and every byte of the lent slice, 255 before the call.
fn case<R: Read, W: Write>(input: &mut R, out: &mut W, n: usize) -> io::Result<()> {
    let room = stdio::read_number(input)?;
    let m = stdio::read_number(input)?;
    let mut label = [0u8; 4096];
    out.write_all(stdio::read_bytes(input, &mut label, n)?)?;
    let mut face = [0u8; 4096];
    let f = stdio::read_bytes(input, &mut face, m)?;
    let mut lent = [255u8; 4096];
    let form = stdio::part(&mut lent, room);
    tell(out, normal::normal(f, form))?;
    stdio::bytes(out, form)?;
    writeln!(out)
}

// The input ends where no label follows. At most a thousand cases.
fn cases<R: Read, W: Write>(input: &mut R, out: &mut W) -> io::Result<()> {
    for _ in 0..1000 {
        let n = stdio::read_number(input)?;
        if n == 0 {
            break;
        }
        case(input, out, n)?;
    }
    Ok(())
}

fn main(rt: HostRuntime) -> io::Result<()> {
    let mut input = BufReader::new(rt.alloc(), rt.reader())?;
    let mut out = BufWriter::new(rt.alloc(), io::writer(&rt))?;
    cases(&mut input, &mut out)?;
    out.flush()
}
