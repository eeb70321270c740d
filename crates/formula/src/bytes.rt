// Comparing and copying bytes.
ghost use Rattle.std.specs.Prelude.{◌≡◌, ◌+◌, ◌≤◌, length};
ghost use Rattle.formula.specs.Answers.{same_bytes, Put};
ghost use Rattle.std.proofs.lemmas.List.Edits.{sets};

// Whether two slices hold the same bytes.
pub fn same(a: &[u8], b: &[u8]) -> bool
    ensures { result ≡ same_bytes a.now b.now }
{
    if a.len() != b.len() {
        return false;
    }
    for i in 0..a.len() {
        if a[i] != b[i] {
            return false;
        }
    }
    true
}

// Copies all of src into out from `at` on, where it fits.
pub fn copy(src: &[u8], out: &mut [u8], at: usize)
    requires { at + length src.now ≤ length out.old }
    ensures { out.new ≡ sets out.old at src.now }
{
    out[at..at + src.len()].copy_from_slice(src);
}

// Copies all of src into out from `at` on where it fits; else changes nothing.
pub fn put(src: &[u8], out: &mut [u8], at: usize) -> bool
    ensures { Put src.now at out.old result out.new }
{
    if out.len() < at || out.len() - at < src.len() {
        return false;
    }
    copy(src, out, at);
    true
}
