// One case: what is asked, and the answer as text.
use crate::show;
use formula::{Place, Sort};
use operations::Op;
use std::io;
use std::io::{Read, Write};

// What is asked.
#[derive(Clone, Copy)]
enum Ask {
    Measure,
    Forall,
    Boundary,
    Shift,
    Substitute,
    Part,
    Steps,
    Ledger,
    Name,
    Put,
    Same,
}

impl Ask {
    // By its number in the input, from 1 on; the last for all that follow.
    fn numbered(n: usize) -> Option<Ask> {
        let ask = match n {
            1 => Ask::Measure,
            2 => Ask::Forall,
            3 => Ask::Boundary,
            4 => Ask::Shift,
            5 => Ask::Substitute,
            6 => Ask::Part,
            7 => Ask::Steps,
            8 => Ask::Ledger,
            9 => Ask::Name,
            10 => Ask::Put,
            0 => return None,
            _ => Ask::Same,
        };
        Some(ask)
    }
}

// What is asked, of which sort, a number, how many bytes are lent, and the lengths of label and operands.
#[derive(Clone, Copy)]
pub struct Case {
    ask: Ask,
    sort: Sort,
    number: usize,
    room: usize,
    label: usize,
    first: usize,
    second: usize,
}

fn sort_of(n: usize) -> Sort {
    match n {
        0 => Sort::Faces,
        _ => Sort::Intervals,
    }
}

// The next case, where one is left.
pub fn head<R: Read>(input: &mut R) -> io::Result<Option<Case>> {
    let number = stdio::read_number(input)?;
    let sort = sort_of(stdio::read_number(input)?);
    let next = Case {
        ask: Ask::Same,
        sort,
        number: stdio::read_number(input)?,
        room: stdio::read_number(input)?,
        label: stdio::read_number(input)?,
        first: stdio::read_number(input)?,
        second: stdio::read_number(input)?,
    };
    Ok(Ask::numbered(number).map(|ask| Case { ask, ..next }))
}

// The second slice of a boundary has as many bytes as the case's number says.
fn boundary<W: Write>(out: &mut W, s: &[u8], zero: &mut [u8], n: usize) -> io::Result<()> {
    show::sized(out, operations::boundary_size(s))?;
    let mut space = [255u8; 64];
    let one = stdio::part(&mut space, n);
    let x = operations::boundary(s, zero, one);
    show::written(out, x, zero)?;
    show::written(out, x, one)
}

fn transform<W: Write>(
    out: &mut W,
    sort: Sort,
    op: Op,
    s: &[u8],
    r: &[u8],
    lent: &mut [u8],
) -> io::Result<()> {
    show::sized(out, operations::transform_size(sort, op, s, r))?;
    let x = operations::transform(sort, op, s, r, lent);
    show::written(out, x, lent)
}

fn forall<W: Write>(out: &mut W, s: &[u8], k: usize, lent: &mut [u8]) -> io::Result<()> {
    show::sized(out, operations::forall_size(s, k))?;
    let x = operations::forall(s, k, lent);
    show::written(out, x, lent)
}

// Steps from a place on until one leads nowhere, at most so many.
fn steps<W: Write>(out: &mut W, sort: Sort, s: &[u8], at: usize, times: usize) -> io::Result<()> {
    let mut p = Place::start(at);
    for _ in 0..times {
        p = show::step(out, p, sort, s)?;
    }
    Ok(())
}

// The first bytes of the space, zeros but for the first operand in front and the second at a place: the steps that the ledger
// has, and the operands of steps 0, 1, 2 and of the largest number.
fn ledger<W: Write>(
    out: &mut W,
    space: &mut [u8],
    n: usize,
    a: &[u8],
    b: &[u8],
    at: usize,
) -> io::Result<()> {
    if space.len() < n {
        return Ok(());
    }
    space.fill(0);
    let l: &mut [u8] = &mut space[..n];
    show::put(out, formula::put(a, l, 0))?;
    show::put(out, formula::put(b, l, at))?;
    show::checked(out, ledger::well_formed(l))?;
    for i in [0, 1, 2, usize::MAX] {
        show::part(out, lookup::operands(l, i))?;
    }
    writeln!(out)
}

// The name of a kind, and whether the bytes are it. The longest name has 15 bytes.
fn name<W: Write>(out: &mut W, kind: usize, a: &[u8]) -> io::Result<()> {
    let mut space = [0u8; 16];
    let n = kinds::name_len(kind);
    if n <= 16 {
        kinds::put_name(kind, &mut space, 0);
        out.write_all(&space[..n])?;
    }
    show::yes_no(out, kinds::is_name(kind, a))
}

fn put<W: Write>(out: &mut W, a: &[u8], lent: &mut [u8], at: usize) -> io::Result<()> {
    show::put(out, formula::put(a, lent, at))?;
    show::line(out, lent)
}

// What is answered, with lent slices of as many bytes as the case says.
fn answer<W: Write>(out: &mut W, c: Case, a: &[u8], b: &[u8], space: &mut [u8]) -> io::Result<()> {
    let mut room = [255u8; 64];
    let lent = stdio::part(&mut room, c.room);
    let n = c.number;
    match c.ask {
        Ask::Measure => show::measured(out, formula::measure(c.sort, a)),
        Ask::Forall => forall(out, a, n, lent),
        Ask::Boundary => boundary(out, a, lent, n),
        Ask::Shift => transform(out, c.sort, Op::DShift(n), a, b, lent),
        Ask::Substitute => transform(out, c.sort, Op::DSubst(n), a, b, lent),
        Ask::Part => show::line(out, formula::formula_at(c.sort, a, n)),
        Ask::Steps => steps(out, c.sort, a, n, c.room),
        Ask::Ledger => ledger(out, space, c.room, a, b, n),
        Ask::Name => name(out, n, a),
        Ask::Put => put(out, a, lent, n),
        Ask::Same => show::yes_no(out, formula::same(a, b)),
    }
}

// One case, behind its label.
pub fn run<R: Read, W: Write>(
    input: &mut R,
    out: &mut W,
    c: Case,
    space: &mut [u8],
) -> io::Result<()> {
    let mut label = [0u8; 4096];
    let mut first = [0u8; 4096];
    let mut second = [0u8; 4096];
    out.write_all(stdio::read_bytes(input, &mut label, c.label)?)?;
    let a = stdio::read_bytes(input, &mut first, c.first)?;
    let b = stdio::read_bytes(input, &mut second, c.second)?;
    answer(out, c, a, b, space)
}
