// The claim of a line, asked.
ghost use Rattle.std.specs.Prelude.{◌≡◌, length};
ghost use Rattle.claims.specs.Facesteps.{first_line, blank};
ghost use Rattle.claims.specs.Printing.{Asks};

use refusals::Refusal;

// How many bytes the first line has.
fn line_length(input: &[u8]) -> usize
    ensures { result ≡ length (first_line input.now) }
{
    match input.iter().position(|b| *b == b'\n') {
        Some(n) => n,
        None => input.len(),
    }
}

// Asks the claim that the first line is, on a ledger of 65,536 zeros.
pub fn ask(input: &[u8], ledger: &mut [u8]) -> Result<usize, Refusal>
    requires { ledger.old ≡ blank }
    ensures { Asks input.now result ledger.new }
{
    let n = line_length(input);
    let long = 4096 < n;
    if long {
        return Err(Refusal::NotAccepted);
    }
    let mut a = [0u8; 1024];
    let mut b = [0u8; 1024];
    let claim = text::read_claim(&input[..n], &mut a, &mut b)?;
    engine::entails(ledger, claim.d, &a[..claim.left], &b[..claim.right])
}
