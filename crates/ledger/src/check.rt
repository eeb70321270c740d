// Question 1: whether bytes are a well-formed ledger, in one pass.
ghost use Rattle.std.specs.Prelude.{◌≡◌};
ghost use Rattle.calculus.specs.Parse.{read_ledger};
ghost use Rattle.ledger.specs.Checks.{step_count, records_in};

use refusals::Refusal;

// The number of the steps whose records fill the bytes.
fn count_records(s: &[u8]) -> Result<usize, Refusal>
    ensures { result ≡ records_in s.now }
{
    let mut at: usize = 0;
    let mut i: usize = 0;
    while at < s.len() {
        if s.len() - at < 4 {
            return Err(Refusal::IllFormedLedger);
        }
        let n = records::get4(s, at);
        let from = at + 4;
        if s.len() - from < n {
            return Err(Refusal::IllFormedLedger);
        }
        let to = from + n;
        if !records::body_fits(&s[from..to], i) {
            return Err(Refusal::IllFormedLedger);
        }
        at = to;
        i += 1;
    }
    Ok(i)
}

// The number of steps, exactly where the bytes are a well-formed ledger.
pub fn well_formed(l: &[u8]) -> Result<usize, Refusal>
    ensures { result ≡ step_count (read_ledger l.now) }
{
    let short = l.len() < 4;
    if short {
        return Err(Refusal::IllFormedLedger);
    }
    let long = 1048576 < l.len();
    if long {
        return Err(Refusal::IllFormedLedger);
    }
    let n = records::get4(l, 0);
    if l.len() - 4 < n {
        return Err(Refusal::IllFormedLedger);
    }
    let end = 4 + n;
    if !records::zeros_from(l, end) {
        return Err(Refusal::IllFormedLedger);
    }
    count_records(&l[4..end])
}
