// Questions 2 to 6 about a normal form.
ghost use Rattle.std.specs.Prelude.{◌≡◌};
ghost use Rattle.refusals.specs.Refusals.{map};
ghost use Rattle.normal.specs.Answers.{Normalises};
ghost use Rattle.normal.specs.Delivering.{IsFace, Delivers, Gives};
ghost use Rattle.dnf.specs.Forming.{Whole};

use formula::{Size, Sort};
use refusals::Refusal;

// The face whose bytes `form` are, in front of the output: questions 5 and 6.
fn deliver(form: &[u8], out: &mut [u8]) -> Result<Size, Refusal>
    requires { IsFace form.now }
    ensures { Delivers form.now out.old result out.new }
{
    let z = formula::measure(Sort::Faces, form)?;
    if !formula::within(z) {
        return Err(Refusal::LargeResult);
    }
    if out.len() < form.len() {
        return Err(Refusal::ShortOutput);
    }
    formula::copy(form, out, 0);
    Ok(z)
}

// The normal form of a face of so many nodes within the limits.
fn formed(f: &[u8], nodes: usize, out: &mut [u8]) -> Result<Size, Refusal>
    requires { Whole f.now nodes 1024 }
    ensures { Gives f.now out.old result out.new }
{
    let mut form = [0u8; 1024];
    let n = dnf::form(f, nodes, &mut form).ok_or(Refusal::LargeResult)?;
    deliver(&form[..n], out)
}

// The normal form of the face that the bytes are, in front of the output: its size.
pub fn normal(f: &[u8], out: &mut [u8]) -> Result<Size, Refusal>
    ensures { Normalises f.now out.old result out.new }
{
    let z = formula::operand(Sort::Faces, f)?;
    formed(f, z.nodes, out)
}

// The length of a normal form that was written.
pub fn length(a: Result<Size, Refusal>) -> Result<usize, Refusal>
    ensures { result ≡ map (λ z. z.len) a }
{
    a.map(|z| z.len)
}
