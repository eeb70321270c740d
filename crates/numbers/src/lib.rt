// Answers as one number (specs/Answers): a refusal is negative.
#![tactic(auto)]

ghost use Rattle.std.specs.Prelude.{◌≡◌, ◌<◌};
ghost use Rattle.calculus.specs.Door.{refused as refused_by};
ghost use Rattle.replies.specs.Replying.{said, said_one, said_both};
ghost use Rattle.numbers.specs.Answers.{reply_number, count_number, claim_number, repeat_number, part_number, is_one};
ghost use Rattle.numbers.specs.Packing.{Packs, ClaimFits, Low, verdict_number};

use desk::Verdict;
use lookup::Part;
use refusals::Refusal;
use replies::Made;
use text::Claim;

// Refusal q as -q.
fn refused(e: Refusal) -> u64
    ensures { result ≡ reply_number (refused_by e) }
{
    let q = refusals::number(e);
    (q as u64).wrapping_neg()
}

// A number that was asked for, of steps, bytes, dimensions or nodes; or the step of a call without results.
pub fn counted(a: Result<usize, Refusal>) -> u64
    ensures { (result ≡ count_number a) × (result ≡ reply_number (said a)) }
{
    match a {
        Ok(n) => n as u64,
        Err(q) => refused(q),
    }
}

// A call with results, all of one length.
pub fn made(a: Result<Made, Refusal>) -> u64
    requires { Packs a }
    ensures { (result ≡ reply_number (said_one a)) × (result ≡ reply_number (said_both a)) }
{
    match a {
        Ok(m) => m.step as u64 + 4294967296 * (m.size.len as u64),
        Err(e) => refused(e),
    }
}

// A claim that was read: d, and the lengths of its faces.
pub fn claim(a: Result<Claim, Refusal>) -> u64
    requires { ClaimFits a }
    ensures { result ≡ claim_number a }
{
    match a {
        Ok(c) => c.d as u64 + 65536 * (c.left as u64) + 4294967296 * (c.right as u64),
        Err(e) => refused(e),
    }
}

// The desk's answer.
pub fn verdict(v: Verdict) -> u64
    requires { Low v }
    ensures { result ≡ verdict_number v }
{
    match v {
        Verdict::Passes(n) => n as u64,
        Verdict::Ill => refused(Refusal::IllFormedLedger),
        Verdict::Fails(n) => refused(Refusal::DoesNotFollow) - 16 * (n as u64),
    }
}

// Whether two ledgers repeat each other.
pub fn compared(a: Result<bool, Refusal>) -> u64
    ensures { result ≡ repeat_number a }
{
    match a {
        Ok(true) => 1,
        Ok(false) => 0,
        Err(e) => refused(e),
    }
}

// Where a part of a ledger stands: its start and its length.
pub fn part(p: Part) -> u64
    requires { (p.start < 4294967296) × (p.len < 2147483648) }
    ensures { result ≡ part_number p.start p.len }
{
    p.start as u64 + 4294967296 * (p.len as u64)
}

// The end that a number names: 0 is i0, any other i1.
pub fn is_one(one: u64) -> bool
    ensures { result ≡ is_one one }
{
    one != 0
}
