// Says whether the ledgers in two files repeat each other.
#![tactic(auto)]

ghost use Rattle.std.specs.Prelude.{◌≤◌, length, IfOk, IfSome};

use refusals::Refusal;
use std::env::Env;
use std::fs::Files;
use std::io;
use std::io::Write;

// How many bytes a ledger has at most.
const LONGEST: usize = 1048576;

// The ledger in the file that argument i names; where there is none, a line says why.
fn load<'a, R: Env + Files, W: Write>(
    rt: &R,
    out: &mut W,
    i: usize,
    space: &'a mut [u8],
) -> io::Result<Option<&'a [u8]>>
    ensures { IfOk result (λ r. IfSome r (λ l. length l.now ≤ length space.old)) }
{
    let wrong = match files::read(rt, i, space) {
        Ok(l) if l.len() <= LONGEST => return Ok(Some(l)),
        Ok(_) => "longer than a ledger may be",
        Err(_) => "cannot be read",
    };
    files::print_name(rt, i, out)?;
    writeln!(out, ": {wrong}")?;
    Ok(None)
}

fn tell<W: Write>(out: &mut W, repeats: Result<bool, Refusal>) -> io::Result<()> {
    match repeats {
        Ok(true) => writeln!(out, "repeats"),
        Ok(false) => writeln!(out, "fresh"),
        Err(e) => writeln!(out, "refused {}", refusals::number(e)),
    }
}

fn main(rt: HostRuntime) -> io::Result<()> {
    let mut out = io::writer(&rt);
    if files::arg_count(&rt) != 3 {
        return writeln!(out, "usage: repeats LEDGER LEDGER");
    }
    let mut first = stdio::room();
    let mut second = stdio::room();
    let a = load(&rt, &mut out, 1, &mut first)?;
    let b = load(&rt, &mut out, 2, &mut second)?;
    if let (Some(l), Some(m)) = (a, b) {
        tell(&mut out, repeat_test::repeats(l, m))?;
    }
    Ok(())
}
