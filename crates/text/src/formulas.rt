// Formulas: an expression opens a list, and a list holds expressions. Their bytes are written as they are met.
ghost use Rattle.std.specs.Prelude.{◌≡◌, ◌+◌, ◌*◌, ◌≤◌, ◌<◌, length};
ghost use Rattle.text.specs.Parsing.{single, double, dimension, Ready, Behind, part_at, part_list_at, last_at, both_at, literal_at, bare_at, node_at, Heads, Parses, Ends};

use crate::{Cursor, Token, numbers, tokens, words};
use formula::{Kind, Sort};
use refusals::Refusal;

// One node more, whose kind byte is written.
fn head(kind: u8, c: Cursor, out: &mut [u8]) -> Result<Cursor, Refusal>
    requires { 0 < c.left → c.to < length out.old }
    ensures { Heads kind c out.old result out.new }
{
    if c.left == 0 {
        return Err(Refusal::TooManyNodes);
    }
    let to = c.to;
    out[to] = kind;
    Ok(Cursor {
        to: to + 1,
        left: c.left - 1,
        ..c
    })
}

// A word where a formula may stand, up to the cursor: only a constant is bare.
fn bare(text: &[u8], sort: Sort, from: usize, c: Cursor, out: &mut [u8]) -> Result<Cursor, Refusal>
    requires { Behind from c text.now × Ready c text.now out.old }
    ensures { Parses (single sort) (bare_at sort text.now from c) text.now c out.old result out.new }
{
    let Some(kind) = words::kind_named(sort, &text[from..c.at]) else {
        return Err(Refusal::NotAccepted);
    };
    match formula::kind_of(sort, kind) {
        Kind::Nullary => head(kind, c, out),
        // A literal has a dimension, so it stands in a list.
        Kind::Literal => Err(Refusal::NotAccepted),
        _ => Err(Refusal::NotAccepted),
    }
}

// The end of a list.
fn end_list(text: &[u8], c: Cursor) -> Result<Cursor, Refusal>
    requires { c.at ≤ length text.now }
    ensures { Ends text.now c result }
{
    let at = tokens::close(text, c.at)?;
    Ok(Cursor { at, ..c })
}

// The dimension of a literal, and the end of its list.
fn literal(text: &[u8], c: Cursor, out: &mut [u8]) -> Result<Cursor, Refusal>
    requires { Ready c text.now out.old × (c.to < length out.old) }
    ensures { Parses dimension (literal_at text.now c) text.now c out.old result out.new }
{
    let m = numbers::number(text, c.at, 254)?;
    formula::put_dim(out, c.to, m.n);
    let d = Cursor {
        at: m.end,
        to: c.to + formula::DIM,
        ..c
    };
    end_list(text, d)
}

// The expression at a place.
#[cycle(both_expression_last_list_node)]
pub(crate) fn expression(
    text: &[u8],
    sort: Sort,
    c: Cursor,
    out: &mut [u8],
) -> Result<Cursor, Refusal>
    requires { Ready c text.now out.old }
    ensures { Parses (single sort) (part_at sort text.now c) text.now c out.old result out.new }
{
    match tokens::token_at(text, c.at) {
        Token::Open(at) => list(text, sort, Cursor { at, ..c }, out),
        Token::Word(from, at) => bare(text, sort, from, Cursor { at, ..c }, out),
        _ => Err(Refusal::NotAccepted),
    }
}

// The expression whose list opened before a place.
#[cycle(both_expression_last_list_node)]
fn list(text: &[u8], sort: Sort, c: Cursor, out: &mut [u8]) -> Result<Cursor, Refusal>
    requires { Ready c text.now out.old }
    ensures { Parses (single sort) (part_list_at sort text.now c) text.now c out.old result out.new }
{
    let Token::Word(from, at) = tokens::token_at(text, c.at) else {
        return Err(Refusal::NotAccepted);
    };
    node(text, sort, from, Cursor { at, ..c }, out)
}

// The first word of a list, up to the cursor, and what follows it.
#[cycle(both_expression_last_list_node)]
fn node(text: &[u8], sort: Sort, from: usize, c: Cursor, out: &mut [u8]) -> Result<Cursor, Refusal>
    requires { Behind from c text.now × Ready c text.now out.old }
    ensures { Parses (single sort) (node_at sort text.now from c) text.now c out.old result out.new }
{
    let Some(kind) = words::kind_named(sort, &text[from..c.at]) else {
        return Err(Refusal::NotAccepted);
    };
    let d = head(kind, c, out)?;
    match formula::kind_of(sort, kind) {
        Kind::Nullary => end_list(text, d),
        Kind::Literal => literal(text, d, out),
        Kind::Unary => last(text, sort, d, out),
        Kind::Binary => both(text, sort, d, out),
        Kind::Unknown => Err(Refusal::NotAccepted),
    }
}

// The last part of a node, and the end of its list.
#[cycle(both_expression_last_list_node)]
fn last(text: &[u8], sort: Sort, c: Cursor, out: &mut [u8]) -> Result<Cursor, Refusal>
    requires { Ready c text.now out.old }
    ensures { Parses (single sort) (last_at sort text.now c) text.now c out.old result out.new }
{
    let d = expression(text, sort, c, out)?;
    end_list(text, d)
}

// Both parts of a node, and the end of its list.
#[cycle(both_expression_last_list_node)]
fn both(text: &[u8], sort: Sort, c: Cursor, out: &mut [u8]) -> Result<Cursor, Refusal>
    requires { Ready c text.now out.old }
    ensures { Parses (double sort) (both_at sort text.now c) text.now c out.old result out.new }
{
    let d = expression(text, sort, c, out)?;
    last(text, sort, d, out)
}
