// Bytes in decimal to a writer, numbers and bytes from a reader, and whole inputs: what the programs share.
#![tactic(auto)]

ghost use Rattle.std.specs.Prelude.{◌≡◌, ◌<◌, ◌≤◌, ◌+◌, ◌-◌, ◌*◌, [], min, length, slice_index, take, drop, true, false, All, ℕ, List, IfOk, OnOk, OnErr};
ghost use Rattle.std.specs.Io.KnownBytes.{Appends, Consumes, IsAtEnd, Keeps};
ghost use Rattle.stdio.specs.Front.{IsPrefixLen, Gathers, spaced, Padded, word_value, low_value, high_value, low_sum, high_sum};

use std::io;
use std::io::{Read, Write};

// Each byte in decimal, with a space before it.
pub fn bytes<W: Write>(out: &mut W, b: &[u8]) -> io::Result<()>
    ensures { OnOk result (Appends (W.contents out.old) (W.contents out.new) (spaced b.now)) }
{
    for x in b {
        write!(out, " {x}")?;
    }
    Ok(())
}

// The first n bytes of a slice, or none where it has fewer.
pub fn first(s: &[u8], n: usize) -> &[u8]
    ensures front { n ≤ length s.now → result.now ≡ take n s.now }
    ensures none { length s.now < n → result.now ≡ [] }
{
    s.get(..n).unwrap_or(&[])
}

// The first n bytes of a slice to write to, or all where it has fewer.
pub fn part(s: &mut [u8], n: usize) -> &mut [u8] {
    let n = n.min(s.len());
    &mut s[..n]
}

// Reads once, behind the first n bytes of the space; how many bytes stand there then, no more than before where the input has ended.
pub fn read_behind<R: Read>(input: &mut R, space: &mut [u8], n: usize) -> io::Result<usize>
    requires { n ≤ length space.old }
    ensures within { IfOk result (λ m. (n ≤ m) × (m ≤ length space.old)) }
    ensures front { take n space.new ≡ take n space.old }
    ensures took { IfOk result (λ m. Consumes (R.remaining input.old) (R.remaining input.new) (take (m - n) (drop n space.new))) }
    ensures ended { IfOk result (λ m. m ≡ n → n < length space.old → IsAtEnd (R.remaining input.new)) }
    ensures err { OnErr result (Keeps (R.remaining input.old) (R.remaining input.new)) }
{
    let got = input.read(&mut space[n..])?;
    Ok(n + got)
}

// What was read: so many bytes, in front of the space, and whether no read failed.
#[derive(Clone, Copy)]
pub struct Content {
    pub len: usize,
    pub whole: bool,
}

// Reads once, behind the first n bytes; there are as many then where the input has ended or the read failed.
pub fn read_more<R: Read>(input: &mut R, space: &mut [u8], n: usize) -> Content
    requires { n ≤ length space.old }
    ensures within { (n ≤ result.len) × (result.len ≤ length space.old) }
    ensures front { take n space.new ≡ take n space.old }
    ensures took { Consumes (R.remaining input.old) (R.remaining input.new) (take (result.len - n) (drop n space.new)) }
    ensures ended { result.whole ≡ true → result.len ≡ n → n < length space.old → IsAtEnd (R.remaining input.new) }
    ensures failed { result.whole ≡ false → (result.len ≡ n) × Keeps (R.remaining input.old) (R.remaining input.new) }
{
    match read_behind(input, space, n) {
        Ok(len) => Content { len, whole: true },
        Err(_) => Content {
            len: n,
            whole: false,
        },
    }
}

// Reads until the space is full, the input ends or a read fails, and counts the bytes that came before that.
fn gather<R: Read>(input: &mut R, space: &mut [u8], n: &mut usize) -> io::Result<()>
    requires { n.old ≡ 0 }
    ensures within { IsPrefixLen n.new space.new }
    ensures gathers { OnOk result (Gathers (R.remaining input.old) (R.remaining input.new) space.new n.new true) }
    ensures err { OnErr result (Gathers (R.remaining input.old) (R.remaining input.new) space.new n.new false) }
{
    while *n < space.len() {
        let m = read_behind(input, space, *n)?;
        if m == *n {
            break;
        }
        *n = m;
    }
    Ok(())
}

// Reads until the space is full or the input ends; how many bytes were read. Where a read fails, what came before it stands
// in front of the space: `read_all` says how many bytes that are.
pub fn fill<R: Read>(input: &mut R, space: &mut [u8]) -> io::Result<usize>
    ensures within { IfOk result (λ n. IsPrefixLen n space.new) }
    ensures gathers { IfOk result (λ n. Gathers (R.remaining input.old) (R.remaining input.new) space.new n true) }
    ensures err { OnErr result ((n : ℕ) × IsPrefixLen n space.new × Gathers (R.remaining input.old) (R.remaining input.new) space.new n false) }
{
    let mut n: usize = 0;
    gather(input, space, &mut n)?;
    Ok(n)
}

// Reads until the input ends, a read fails or the space is full: one read may bring fewer bytes than there are.
pub fn read_all<R: Read>(input: &mut R, space: &mut [u8]) -> Content
    ensures within { IsPrefixLen result.len space.new }
    ensures gathers { Gathers (R.remaining input.old) (R.remaining input.new) space.new result.len result.whole }
{
    let mut n: usize = 0;
    let whole = gather(input, space, &mut n).is_ok();
    Content { len: n, whole }
}

// Two sums of the bytes, as Adler's checksum has them.
pub fn adler(s: &[u8]) -> (usize, usize)
    ensures bounds { (result.0 < 65521) × (result.1 < 65521) }
    ensures sums { (result.0 ≡ low_sum 1 s.now) × (result.1 ≡ high_sum 1 0 s.now) }
{
    let mut a: usize = 1;
    let mut b: usize = 0;
    for x in s {
        a = (a + usize::from(*x)) % 65521;
        b = (b + a) % 65521;
    }
    (a, b)
}

// The next four bytes of the input; zeros where it ends.
pub fn word<R: Read>(input: &mut R) -> io::Result<[u8; 4]>
    ensures { IfOk result (Padded (R.remaining input.old) (R.remaining input.new)) }
{
    let mut b = [0u8; 4];
    let n = fill(input, &mut b)?;
    b[n..].fill(0);
    Ok(b)
}

// The next number of the input, of four bytes, the lowest first.
pub fn read_number<R: Read>(input: &mut R) -> io::Result<usize>
    ensures { IfOk result (λ n. (b : List ℕ) × Padded (R.remaining input.old) (R.remaining input.new) b × (n ≡ word_value b)) }
{
    Ok(u32::from_le_bytes(word(input)?) as usize)
}

// The next two numbers of the input, of two bytes each.
pub fn read_pair<R: Read>(input: &mut R) -> io::Result<(usize, usize)>
    ensures bounds { IfOk result (λ p. (p.0 < 65536) × (p.1 < 65536)) }
    ensures read { IfOk result (λ p. (b : List ℕ) × Padded (R.remaining input.old) (R.remaining input.new) b × (p.0 ≡ low_value b) × (p.1 ≡ high_value b)) }
{
    let [a, b, c, d] = word(input)?;
    let low = u16::from_le_bytes([a, b]);
    let high = u16::from_le_bytes([c, d]);
    Ok((usize::from(low), usize::from(high)))
}

// The next n bytes of the input, in the front of the space; all of the space where it is shorter.
pub fn read_bytes<'a, R: Read>(input: &mut R, space: &'a mut [u8], n: usize) -> io::Result<&'a [u8]>
    ensures taken { IfOk result (λ r. n ≤ length space.old → (length r.now ≡ n) × ((k : ℕ) × Gathers (R.remaining input.old) (R.remaining input.new) r.now k true)) }
    ensures short { IfOk result (λ r. length space.old < n → (r.now ≡ space.old) × (R.remaining input.new ≡ R.remaining input.old)) }
{
    if n <= space.len() {
        let part: &mut [u8] = &mut space[..n];
        fill(input, part)?;
        return Ok(part);
    }
    Ok(space)
}

// So many zeros.
pub fn zeros<const N: usize>() -> [u8; N]
    ensures long { N ≡ length result }
    ensures zeros { All (λ x. x ≡ 0) result }
{
    [0; N]
}

// Room for a ledger, one byte more than the longest has, so that a longer one is refused and not cut.
pub fn room() -> [u8; 1048577]
    ensures { 1048577 ≡ length result }
{
    zeros()
}
