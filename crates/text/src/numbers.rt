// Unary numbers: z, (z), or (s n).
ghost use Rattle.std.specs.Prelude.{◌≤◌, ◌<◌, length};
ghost use Rattle.text.specs.Scanning.{number_at, number_list_at, close_at, next_at, Numerals};

use crate::{Numeral, Token, tokens, words};
use refusals::Refusal;

// The number n, where its list ends here.
fn closed(text: &[u8], at: usize, n: usize, most: usize) -> Result<Numeral, Refusal>
    requires { (at ≤ length text.now) × (n ≤ most) }
    ensures { Numerals (close_at text.now at n) text.now at most result }
{
    let end = tokens::close(text, at)?;
    Ok(Numeral { n, end })
}

// The number at a place, with at most so many s.
#[cycle(next_number_number_list)]
pub(crate) fn number(text: &[u8], at: usize, most: usize) -> Result<Numeral, Refusal>
    requires { (at ≤ length text.now) × (most < 65536) }
    ensures { Numerals (number_at text.now at most) text.now at most result }
{
    match tokens::token_at(text, at) {
        Token::Open(end) => number_list(text, end, most),
        Token::Word(from, end) => {
            if words::is_zero(&text[from..end]) {
                return Ok(Numeral { n: 0, end });
            }
            Err(Refusal::NotAccepted)
        }
        _ => Err(Refusal::NotAccepted),
    }
}

// The number whose list opened before a place.
#[cycle(next_number_number_list)]
fn number_list(text: &[u8], at: usize, most: usize) -> Result<Numeral, Refusal>
    requires { (at ≤ length text.now) × (most < 65536) }
    ensures { Numerals (number_list_at text.now at most) text.now at most result }
{
    let Token::Word(from, end) = tokens::token_at(text, at) else {
        return Err(Refusal::NotAccepted);
    };
    if words::is_zero(&text[from..end]) {
        return closed(text, end, 0, most);
    }
    if words::is_succ(&text[from..end]) {
        return next(text, end, most);
    }
    Err(Refusal::NotAccepted)
}

// One more than the number at a place, where its list ends behind it.
#[cycle(next_number_number_list)]
fn next(text: &[u8], at: usize, most: usize) -> Result<Numeral, Refusal>
    requires { (at ≤ length text.now) × (most < 65536) }
    ensures { Numerals (next_at text.now at most) text.now at most result }
{
    if most == 0 {
        return Err(Refusal::LargeDimension);
    }
    let m = number(text, at, most - 1)?;
    closed(text, m.end, m.n + 1, most)
}
