// Little-endian numbers and runs of zeros.
ghost use Rattle.std.specs.Prelude.{◌≡◌, ◌+◌, ◌-◌, ◌≤◌, ◌<◌, eqb, length, take, drop, replicate};
ghost use Rattle.std.proofs.lemmas.List.Edits.{sets};
ghost use Rattle.calculus.specs.Rules.{AllBelow};
ghost use Rattle.calculus.specs.Record.{little_endian};
ghost use Rattle.calculus.specs.Parse.{all_zero};
ghost use Rattle.records.specs.Places.{little_at};

// The number of two bytes at `at`. That every element of a slice is a byte is said here, once for all readers.
pub fn get2(s: &[u8], at: usize) -> usize
    requires { at + 2 ≤ length s.now }
    ensures { (result ≡ little_at 2 s.now at) × (result < 65536) × AllBelow 256 s.now }
{
    s[at] as usize + 256 * s[at + 1] as usize
}

// The number of four bytes at `at`.
pub fn get4(s: &[u8], at: usize) -> usize
    requires { at + 4 ≤ length s.now }
    ensures { (result ≡ little_at 4 s.now at) × (result < 4294967296) × AllBelow 256 s.now }
{
    get2(s, at) + 65536 * get2(s, at + 2)
}

// Writes n in two bytes at `at`.
pub fn put2(s: &mut [u8], at: usize, n: usize)
    requires { at + 2 ≤ length s.old }
    ensures { s.new ≡ sets s.old at (little_endian 2 n) }
{
    s[at] = (n % 256) as u8;
    s[at + 1] = (n / 256 % 256) as u8;
}

// Writes n in four bytes at `at`.
pub fn put4(s: &mut [u8], at: usize, n: usize)
    requires { at + 4 ≤ length s.old }
    ensures { s.new ≡ sets s.old at (little_endian 4 n) }
{
    put2(s, at, n);
    put2(s, at + 2, n / 256 / 256);
}

// Zeros from `from` up to `to`.
pub fn clear(s: &mut [u8], from: usize, to: usize)
    requires { (from ≤ to) × (to ≤ length s.old) }
    ensures { s.new ≡ sets s.old from (replicate (to - from) 0) }
{
    s[from..to].fill(0);
}

// The number of eight bytes at `at`.
fn get8(s: &[u8], at: usize) -> usize
    requires { at + 8 ≤ length s.now }
    ensures { result ≡ little_at 8 s.now at }
{
    get4(s, at) + 4294967296 * get4(s, at + 4)
}

// The bits of the two numbers in sixteen bytes at `at`: zero only where all bytes are.
fn bits16(s: &[u8], at: usize) -> usize
    requires { at + 16 ≤ length s.now }
    ensures { eqb result 0 ≡ all_zero (take 16 (drop at s.now)) }
{
    get8(s, at) | get8(s, at + 8)
}

// The same of sixty-four bytes.
fn bits64(s: &[u8], at: usize) -> usize
    requires { at + 64 ≤ length s.now }
    ensures { eqb result 0 ≡ all_zero (take 64 (drop at s.now)) }
{
    bits16(s, at) | bits16(s, at + 16) | bits16(s, at + 32) | bits16(s, at + 48)
}

// Whether all bytes from `at` on are zeros, byte by byte.
fn tail_is_zero(s: &[u8], at: usize) -> bool
    requires { at ≤ length s.now }
    ensures { result ≡ all_zero (drop at s.now) }
{
    s[at..].iter().all(|&b| b == 0)
}

// Whether all bytes from `at` on are zeros, sixty-four a turn.
pub fn zeros_from(s: &[u8], at: usize) -> bool
    requires { at ≤ length s.now }
    ensures { result ≡ all_zero (drop at s.now) }
{
    let mut i = at;
    while 64 <= s.len() - i {
        if bits64(s, i) != 0 {
            return false;
        }
        i += 64;
    }
    tail_is_zero(s, i)
}
