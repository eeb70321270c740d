// The readers: a text is a formula or a claim, to its end.
ghost use Rattle.std.specs.Prelude.{◌≡◌, ◌≤◌, length};
ghost use Rattle.text.specs.Answers.{ReadsInto, ReadsClaim};
ghost use Rattle.text.specs.Wholes.{Finishes, Whole, Delivers, ClaimStarts, BothFaces, WholeClaim, DeliversBoth};

use crate::{Claim, Cursor, Token, formulas, numbers, tokens, words};
use formula::Sort;
use refusals::Refusal;

// The cursor, where no token follows.
fn ended(text: &[u8], c: Cursor) -> Result<Cursor, Refusal>
    requires { c.at ≤ length text.now }
    ensures { Finishes text.now c result }
{
    match tokens::token_at(text, c.at) {
        Token::End => Ok(c),
        // A parenthesis that closes no list.
        Token::Close(_) => Err(Refusal::NotAccepted),
        _ => Err(Refusal::NotAccepted),
    }
}

// The formula from a place to the end of the text, in front of `made`.
fn whole(text: &[u8], sort: Sort, at: usize, made: &mut [u8]) -> Result<Cursor, Refusal>
    requires { (at ≤ length text.now) × (length made.old ≡ 1024) }
    ensures { Whole sort text.now at made.old result made.new }
{
    let start = Cursor {
        at,
        to: 0,
        left: 511,
    };
    let c = formulas::expression(text, sort, start, made)?;
    ended(text, c)
}

// Copies what was made, where it fits.
fn deliver(x: &[u8], out: &mut [u8]) -> Result<usize, Refusal>
    ensures { Delivers x.now out.old result out.new }
{
    if formula::put(x, out, 0) {
        return Ok(x.len());
    }
    Err(Refusal::ShortOutput)
}

// The formula that a text is: its bytes stand in front of the output.
pub fn read_formula(sort: Sort, text: &[u8], out: &mut [u8]) -> Result<usize, Refusal>
    ensures { ReadsInto sort text.now out.old result out.new }
{
    let mut made = [0u8; 1024];
    let c = whole(text, sort, 0, &mut made)?;
    deliver(&made[..c.to], out)
}

// The place behind the word that a claim starts with.
fn claim_word(text: &[u8]) -> Result<usize, Refusal>
    ensures { ClaimStarts text.now result }
{
    let Token::Word(from, end) = tokens::token_at(text, 0) else {
        return Err(Refusal::NotAccepted);
    };
    if !words::is_entails(&text[from..end]) {
        return Err(Refusal::NotAccepted);
    }
    Ok(end)
}

// Both faces of a claim over d, from a place to the end of the text.
fn both_faces(
    text: &[u8],
    d: usize,
    at: usize,
    a: &mut [u8],
    b: &mut [u8],
) -> Result<Claim, Refusal>
    requires { (at ≤ length text.now) × (length a.old ≡ 1024) × (length b.old ≡ 1024) }
    ensures { BothFaces text.now at d a.old b.old result a.new b.new }
{
    let start = Cursor {
        at,
        to: 0,
        left: 511,
    };
    let left = formulas::expression(text, Sort::Faces, start, a)?;
    let right = whole(text, Sort::Faces, left.at, b)?;
    Ok(Claim {
        d,
        left: left.to,
        right: right.to,
    })
}

// The claim that the text is, its faces in front of the scratch slices.
fn claim(text: &[u8], a: &mut [u8], b: &mut [u8]) -> Result<Claim, Refusal>
    requires { (length a.old ≡ 1024) × (length b.old ≡ 1024) }
    ensures { WholeClaim text.now a.old b.old result a.new b.new }
{
    let at = claim_word(text)?;
    let d = numbers::number(text, at, 255)?;
    both_faces(text, d.n, d.end, a, b)
}

// Copies both faces, where both fit.
fn deliver_both(d: usize, x: &[u8], y: &[u8], a: &mut [u8], b: &mut [u8]) -> Result<Claim, Refusal>
    ensures { DeliversBoth d x.now y.now a.old b.old result a.new b.new }
{
    let left = x.len();
    let right = y.len();
    if a.len() < left {
        return Err(Refusal::ShortOutput);
    }
    let short = b.len() < right;
    if short {
        return Err(Refusal::ShortOutput);
    }
    formula::copy(x, a, 0);
    formula::copy(y, b, 0);
    Ok(Claim { d, left, right })
}

// The claim that a text is: d, and the bytes of its faces in front of the outputs.
pub fn read_claim(text: &[u8], a: &mut [u8], b: &mut [u8]) -> Result<Claim, Refusal>
    ensures { ReadsClaim text.now a.old b.old result a.new b.new }
{
    let mut left = [0u8; 1024];
    let mut right = [0u8; 1024];
    let found = claim(text, &mut left, &mut right)?;
    deliver_both(found.d, &left[..found.left], &right[..found.right], a, b)
}
