// What the engine answered and wrote, held against what is expected.
use refusals::Refusal;
use replies::Made;
use std::io;
use std::io::Read;

// What lent outputs are filled with beforehand.
pub const FILL: u8 = 170;

// An answer: the step's number or the refusal's, and the result's length.
#[derive(Clone, Copy, PartialEq, Eq)]
pub struct Said {
    pub answer: Result<usize, usize>,
    pub len: usize,
}

pub fn step(a: Result<usize, Refusal>) -> Said {
    Said {
        answer: a.map_err(refusals::number),
        len: 0,
    }
}

pub fn made(m: Result<Made, Refusal>) -> Said {
    match m {
        Ok(m) => Said {
            answer: Ok(m.step),
            len: m.size.len,
        },
        Err(e) => step(Err(e)),
    }
}

// Reads a result of n bytes: the output begins with it, and its other bytes stayed. An output that the call does not have is empty.
pub fn written<R: Read>(input: &mut R, n: usize, out: &[u8]) -> io::Result<bool> {
    let mut space = [0u8; 4096];
    let want = stdio::read_bytes(input, &mut space, n)?;
    let rest = out.strip_prefix(want);
    Ok(rest.is_some_and(|rest| rest.iter().all(|x| *x == FILL)))
}

// Reads how many bytes of the ledger are given, and these: it begins with them.
pub fn given<R: Read>(input: &mut R, l: &[u8]) -> io::Result<bool> {
    let n = stdio::read_number(input)?;
    let mut space = [0u8; 4096];
    let want = stdio::read_bytes(input, &mut space, n)?;
    Ok(l.starts_with(want))
}

// The ledger's used bytes by their sums; the others are zero.
pub fn ledger(l: &[u8], used: usize, sums: (usize, usize)) -> bool {
    let (front, rest) = l.split_at(used.min(l.len()));
    stdio::adler(front) == sums && rest.iter().all(|x| *x == 0)
}
