// The parts of an index, and one step more.
ghost use Rattle.std.specs.Prelude.{◌≡◌, ◌+◌, ◌-◌, ◌/◌, ◌*◌, ◌%◌, ◌≤◌, ◌<◌, leb, length, get_or};
ghost use Rattle.index.specs.Index.{groups_of, heads_of, places_from, mark, Placed, Entered, Enters, marked};

// How many groups an index of n numbers has.
fn groups(n: usize) -> usize
    ensures { result ≡ (n - 2) / 21 }
{
    n.saturating_sub(2) / 21
}

// How many buckets an index of n numbers has.
pub fn heads(n: usize) -> usize
    ensures { result ≡ 4 * ((n - 2) / 21) + 1 }
{
    4 * groups(n) + 1
}

// Where the places of an index of n numbers begin.
pub fn places_from(n: usize) -> usize
    ensures { (result ≡ n - (n - 2) / 21) × (result ≤ n) }
{
    n - groups(n)
}

// The number at a place.
pub fn slot(x: &[u32], i: usize) -> usize
    requires { i < length x.now }
    ensures { (result ≡ get_or x.now i 0) × (result < 4294967296) }
{
    x[i] as usize
}

// One more than the number of the step before step i in its bucket, or 0.
pub fn link(x: &[u32], i: usize) -> usize
    requires { 1 + heads_of x.now + i < length x.now }
    ensures { result ≡ get_or x.now (1 + heads_of x.now + i) 0 % mark }
{
    slot(x, 1 + heads(x.len()) + i) % 2147483648
}

// Whether the search for step i is marked as finished.
pub fn is_marked(x: &[u32], i: usize) -> bool
    requires { 1 + heads_of x.now + i < length x.now }
    ensures { result ≡ leb mark (get_or x.now (1 + heads_of x.now + i) 0) }
{
    2147483648 <= slot(x, 1 + heads(x.len()) + i)
}

// Notes that the record of step n is at `at`.
fn note(x: &mut [u32], n: usize, at: usize)
    requires { (n < 16 * groups_of x.old) × (at ≤ 1048576) }
    ensures { Placed (places_from x.old) n at x.old x.new }
{
    let p = places_from(x.len());
    ledger::places::note(&mut x[p..], n, at);
}

// One step more behind n others, in bucket b, with its record at `at`.
fn store(x: &mut [u32], n: usize, b: usize, at: usize)
    requires { (b < heads_of x.old) × (at ≤ 1048576) × (n < 1048576) × (n < 16 * groups_of x.old) }
    ensures { Entered (heads_of x.old) (places_from x.old) n x.old b at x.new }
{
    note(x, n, at);
    let i = 1 + heads(x.len()) + n;
    x[i] = x[1 + b];
    x[1 + b] = (n + 1) as u32;
    x[0] = (n + 1) as u32;
}

// One step more, in bucket b, with its record at `at`; nothing where there is no room.
pub fn enter_step(x: &mut [u32], b: usize, at: usize)
    requires { (b < heads_of x.old) × (at ≤ 1048576) }
    ensures { Enters x.old b at x.new }
{
    if x.len() < 23 {
        return;
    }
    let n = slot(x, 0);
    if 1048576 <= n {
        return;
    }
    if 16 * groups(x.len()) <= n {
        return;
    }
    store(x, n, b, at);
}

// Marks the search for step i as finished.
pub fn set_mark(x: &mut [u32], i: usize)
    requires { (1 + heads_of x.old + i < length x.old) × (get_or x.old (1 + heads_of x.old + i) 0 < mark) }
    ensures { x.new ≡ marked (heads_of x.old) x.old i }
{
    let k = 1 + heads(x.len()) + i;
    x[k] += 2147483648;
}
