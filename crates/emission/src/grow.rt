// A record more at the end, and back to fewer.
ghost use Rattle.std.specs.Prelude.{◌≡◌, ◌+◌, ◌*◌, ◌≤◌, length};
ghost use Rattle.std.proofs.lemmas.List.Edits.{sets};
ghost use Rattle.calculus.specs.Record.{references_bytes, size};
ghost use Rattle.ledger.specs.Ledger.{steps_of, Led};
ghost use Rattle.emission.specs.Emitting.{raw_record, Appended, Undone};

// Writes the references from `at` on.
fn put_references(l: &mut [u8], at: usize, references: &[usize])
    requires { at + 4 * length references.now ≤ length l.old }
    ensures { l.new ≡ sets l.old at (references_bytes references.now) }
{
    for (j, &reference) in references.iter().enumerate() {
        records::put4(l, at + 4 * j, reference);
    }
}

// Writes the record of a step of this kind from `at` on.
fn put_record(l: &mut [u8], at: usize, kind: usize, references: &[usize], operands: &[u8])
    requires { at + 6 + 4 * length references.now + length operands.now ≤ length l.old }
    ensures { l.new ≡ sets l.old at (raw_record kind references.now operands.now) }
{
    let n = references.len();
    records::put4(l, at, 2 + 4 * n + operands.len());
    records::put2(l, at + 4, kind);
    put_references(l, at + 6, references);
    formula::copy(operands, l, at + 6 + 4 * n);
}

// One step more and where its record begins, where there is room; else nothing changes.
pub fn append(l: &mut [u8], kind: usize, references: &[usize], operands: &[u8]) -> Option<usize>
    requires { Led l.old × (length references.now ≤ 3) }
    ensures { Appended l.old kind references.now operands.now result l.new }
{
    let at = ledger::used(l);
    let room = l.len() - at;
    let n = references.len();
    if room < operands.len() {
        return None;
    }
    if room - operands.len() < 6 + 4 * n {
        return None;
    }
    put_record(l, at, kind, references, operands);
    records::put4(l, 0, at + 2 + 4 * n + operands.len());
    Some(at)
}

// Back to records that end at `end`: what was behind them becomes zeros.
pub fn undo(l: &mut [u8], end: usize)
    requires { Led l.old × (4 ≤ end) × (end ≤ size (steps_of l.old)) }
    ensures { Undone l.old end l.new }
{
    let to = ledger::used(l);
    records::clear(l, end, to);
    records::put4(l, 0, end - 4);
}
