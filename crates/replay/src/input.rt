// What standard input says of a call.
use crate::judge::Said;
use std::io;
use std::io::Read;

// A call of the engine, in the order of their numbers in the input.
#[derive(Clone, Copy)]
pub enum Call {
    Face,
    Interval,
    Boundary,
    Endpoint,
    Forall,
    FaceShift,
    IntervalShift,
    FaceSubstitute,
    IntervalSubstitute,
    Entails,
}

// A call, none where its number names none, with its number, whether its end is one, the lengths of its outputs, operands and results, and what is expected of it.
#[derive(Clone, Copy)]
pub struct Heading {
    pub call: Option<Call>,
    pub number: usize,
    pub one: bool,
    pub rooms: (usize, usize),
    pub operands: (usize, usize),
    pub results: (usize, usize),
    pub expected: Said,
}

// The call with a number, if there is one.
fn call_of(kind: u8) -> Option<Call> {
    let call = match kind {
        0 => Call::Face,
        1 => Call::Interval,
        2 => Call::Boundary,
        3 => Call::Endpoint,
        4 => Call::Forall,
        5 => Call::FaceShift,
        6 => Call::IntervalShift,
        7 => Call::FaceSubstitute,
        8 => Call::IntervalSubstitute,
        9 => Call::Entails,
        _ => return None,
    };
    Some(call)
}

// The answer is the refusal, or 16 and the step's number.
fn answer_of(n: usize) -> Result<usize, usize> {
    n.checked_sub(16).ok_or(n)
}

pub fn head<R: Read>(input: &mut R) -> io::Result<Heading> {
    let [kind, one, _, _] = stdio::word(input)?;
    let number = stdio::read_number(input)?;
    let rooms = stdio::read_pair(input)?;
    let operands = stdio::read_pair(input)?;
    let answer = answer_of(stdio::read_number(input)?);
    let results = stdio::read_pair(input)?;
    Ok(Heading {
        call: call_of(kind),
        number,
        one: one != 0,
        rooms,
        operands,
        results,
        expected: Said {
            answer,
            len: results.0,
        },
    })
}
