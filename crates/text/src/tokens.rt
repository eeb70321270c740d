// The tokens of a text.
ghost use Rattle.std.specs.Prelude.{◌≡◌, ◌+◌, ◌≤◌, length, drop};
ghost use Rattle.text.specs.Tokens.{class_of};
ghost use Rattle.text.specs.Scanning.{span_of, Lexes, Closes};

use crate::{Class, Token};
use refusals::Refusal;

// What a byte is.
fn class_of(b: u8) -> Class
    ensures { result ≡ class_of b }
{
    match b {
        b'(' => Class::Opening,
        b')' => Class::Closing,
        b' ' | b'\n' => Class::Separator,
        _ => Class::Spelling,
    }
}

// The end of the run of bytes of one class that starts at a place.
fn span(text: &[u8], from: usize, class: Class) -> usize
    requires { from ≤ length text.now }
    ensures { result ≡ from + span_of class (drop from text.now) }
{
    match text[from..].iter().position(|b| class_of(*b) != class) {
        Some(n) => from + n,
        None => text.len(),
    }
}

// The first token from a place on.
pub(crate) fn token_at(text: &[u8], from: usize) -> Token
    requires { from ≤ length text.now }
    ensures { Lexes text.now from result }
{
    let at = span(text, from, Class::Separator);
    if at == text.len() {
        return Token::End;
    }
    match class_of(text[at]) {
        Class::Opening => Token::Open(at + 1),
        Class::Closing => Token::Close(at + 1),
        _ => Token::Word(at, span(text, at, Class::Spelling)),
    }
}

// The place behind a closing parenthesis, where it is the first token from a place on.
pub(crate) fn close(text: &[u8], from: usize) -> Result<usize, Refusal>
    requires { from ≤ length text.now }
    ensures { Closes text.now from result }
{
    let Token::Close(end) = token_at(text, from) else {
        return Err(Refusal::NotAccepted);
    };
    Ok(end)
}
