// The table of kinds (document 01: "Each kind has a fixed name, reference count and predicate"), and the fields of the predicates.
ghost use Rattle.std.specs.Prelude.{◌≡◌, ◌+◌, ◌≤◌, ◌<◌, length, map, MatchOption};
ghost use Rattle.std.proofs.lemmas.List.Edits.{sets};
ghost use Rattle.formula.specs.Answers.{same_bytes};
ghost use Rattle.calculus.specs.Table.{unlisted, table, entry_of};
ghost use Rattle.calculus.specs.Record.{fields};
ghost use Rattle.kinds.specs.Kinds.{entry_as, RowIs, RowsAre, name_bytes, field_as, field_at, predicate_of};

use crate::Field::{Context, End, Face, Index, Interval, Number};
use crate::{Entry, Field};

// A row of the table: the name, how many references a step has, and the number of its predicate in document 01's order (lt 0, le 1,
// interval, face, member, take, cover, entails 7, boundary, local, fforall 10, ishift, isubst, fshift, fsubst 14).
#[derive(Clone, Copy)]
struct Row(&'static [u8], usize, usize);

// The kinds from 1 on.
static ROWS: [Row; 75] = [
    Row(b"lt.z", 0, 0),
    Row(b"lt.s", 1, 0),
    Row(b"le.z", 0, 1),
    Row(b"le.s", 1, 1),
    Row(b"interval.0", 0, 2),
    Row(b"interval.1", 0, 2),
    Row(b"interval.dim", 1, 2),
    Row(b"interval.neg", 1, 2),
    Row(b"interval.meet", 2, 2),
    Row(b"interval.join", 2, 2),
    Row(b"face.ff", 0, 3),
    Row(b"face.ft", 0, 3),
    Row(b"face.0", 1, 3),
    Row(b"face.1", 1, 3),
    Row(b"face.and", 2, 3),
    Row(b"face.or", 2, 3),
    Row(b"member.here", 0, 4),
    Row(b"member.there", 1, 4),
    Row(b"take.here", 0, 5),
    Row(b"take.there", 1, 5),
    Row(b"cover.top", 0, 6),
    Row(b"cover.hit", 1, 6),
    Row(b"cover.absurd", 1, 6),
    Row(b"cover.clash", 2, 6),
    Row(b"cover.and-left", 2, 6),
    Row(b"cover.or-left", 3, 6),
    Row(b"cover.and-right", 2, 6),
    Row(b"cover.or-right0", 1, 6),
    Row(b"cover.or-right1", 1, 6),
    Row(b"entails.checked", 3, 7),
    Row(b"boundary.0", 0, 8),
    Row(b"boundary.1", 0, 8),
    Row(b"boundary.dim", 0, 8),
    Row(b"boundary.neg", 1, 8),
    Row(b"boundary.meet", 2, 8),
    Row(b"boundary.join", 2, 8),
    Row(b"local.0", 3, 9),
    Row(b"local.1", 3, 9),
    Row(b"fforall.ff", 0, 10),
    Row(b"fforall.ft", 0, 10),
    Row(b"fforall.0.hit", 0, 10),
    Row(b"fforall.0.lt", 1, 10),
    Row(b"fforall.0.gt", 1, 10),
    Row(b"fforall.1.hit", 0, 10),
    Row(b"fforall.1.lt", 1, 10),
    Row(b"fforall.1.gt", 1, 10),
    Row(b"fforall.and", 2, 10),
    Row(b"fforall.or", 2, 10),
    Row(b"ishift.0", 0, 11),
    Row(b"ishift.1", 0, 11),
    Row(b"ishift.dim.lt", 1, 11),
    Row(b"ishift.dim.ge", 1, 11),
    Row(b"ishift.neg", 1, 11),
    Row(b"ishift.meet", 2, 11),
    Row(b"ishift.join", 2, 11),
    Row(b"isubst.0", 0, 12),
    Row(b"isubst.1", 0, 12),
    Row(b"isubst.dim.lt", 1, 12),
    Row(b"isubst.dim.hit", 0, 12),
    Row(b"isubst.dim.gt", 1, 12),
    Row(b"isubst.neg", 1, 12),
    Row(b"isubst.meet", 2, 12),
    Row(b"isubst.join", 2, 12),
    Row(b"fshift.ff", 0, 13),
    Row(b"fshift.ft", 0, 13),
    Row(b"fshift.0", 1, 13),
    Row(b"fshift.1", 1, 13),
    Row(b"fshift.and", 2, 13),
    Row(b"fshift.or", 2, 13),
    Row(b"fsubst.ff", 0, 14),
    Row(b"fsubst.ft", 0, 14),
    Row(b"fsubst.0", 2, 14),
    Row(b"fsubst.1", 2, 14),
    Row(b"fsubst.and", 2, 14),
    Row(b"fsubst.or", 2, 14),
];

// The rows are those of document 01's table.
fn rows() -> &'static [Row]
    ensures { RowsAre table result.now }
{
    &ROWS
}

// The row of a kind, if the number is one.
fn row_of(kind: usize) -> Option<&'static Row>
    ensures { MatchOption result (entry_of kind ≡ unlisted) (λ r. RowIs (entry_of kind) r.now) }
{
    if kind == 0 {
        return None;
    }
    rows().get(kind - 1)
}

// The entry of a number.
pub fn entry_of(kind: usize) -> Option<Entry>
    ensures { result ≡ entry_as (entry_of kind) }
{
    let &Row(_, references, predicate) = row_of(kind)?;
    Some(Entry {
        references,
        predicate,
    })
}

// The fields of a predicate, in document 01's printed order.
pub fn fields_of(predicate: usize) -> &'static [Field]
    requires { predicate < 15 }
    ensures { result.now ≡ map field_as (fields (predicate_of predicate)) }
{
    match predicate {
        0 => &[Number, Number], // lt
        1 => &[Number, Number], // le
        2 => &[Number, Interval], // interval
        3 => &[Number, Face], // face
        4 => &[Face, Context], // member
        5 => &[Context, Face, Context], // take
        6 => &[Context, Face], // cover
        7 => &[Number, Face, Face], // entails
        8 => &[Interval, Face, Face], // boundary
        9 => &[Number, Face, Interval, End], // local
        10 => &[Face, Index, Face], // fforall
        11 => &[Interval, Index, Interval], // ishift
        12 => &[Interval, Index, Interval, Interval], // isubst
        13 => &[Face, Index, Face], // fshift
        _ => &[Face, Index, Interval, Face], // fsubst
    }
}

// Field j of a predicate.
pub fn field_of(predicate: usize, j: usize) -> Option<Field>
    requires { (predicate < 15) × (j < 4) }
    ensures { result ≡ field_at predicate j }
{
    fields_of(predicate).get(j).copied()
}

// The name of a kind; nothing where the number is no kind.
pub fn name_of(kind: usize) -> &'static [u8]
    ensures { result.now ≡ name_bytes kind }
{
    let Some(&Row(name, _, _)) = row_of(kind) else {
        return &[];
    };
    name
}

// The length of the name of a kind; 0 where the number is no kind.
pub fn name_len(kind: usize) -> usize
    ensures { result ≡ length (name_bytes kind) }
{
    name_of(kind).len()
}

// Writes the name of the kind into out from `at` on.
pub fn put_name(kind: usize, out: &mut [u8], at: usize)
    requires { at + length (name_bytes kind) ≤ length out.old }
    ensures { out.new ≡ sets out.old at (name_bytes kind) }
{
    let name = name_of(kind);
    out[at..at + name.len()].copy_from_slice(name);
}

// Whether the bytes are the name of the kind.
pub fn is_name(kind: usize, s: &[u8]) -> bool
    ensures { result ≡ same_bytes (name_bytes kind) s.now }
{
    name_of(kind) == s
}
