// Judgements: the name of the predicate and its operands, in document 01's printed order.
ghost use Rattle.std.specs.Prelude.{◌≡◌, ◌<◌, [], map, get_or};
ghost use Rattle.calculus.specs.Judgement.{Step};
ghost use Rattle.writing.specs.Writing.{Room, Writes};
ghost use Rattle.listing.specs.Lines.{predicate_names, judgement_text};
ghost use Rattle.listing.specs.Writing.{NumberFronts, NumberWrites, FacesFront, FacesWrite, ContextFronts, ContextWrites, field_of, FieldFronts, FieldWrites, ValuesFront, ValuesWrite, step_of, Shows};

use formula::Sort;
use kinds::Field;
use ledger::Cursor;
use writing::Writer;

// Writes the number in front of f; how many bytes it takes there.
fn number(f: &[u8], w: &mut Writer) -> usize
    requires { NumberFronts f.now w.old.to }
    ensures { NumberWrites f.now w.old result w.new }
{
    let n = formula::dim_at(f, 0);
    w.unary(n);
    formula::DIM
}

// Writes the n faces in front of f as a context; how many bytes they take there.
fn faces(n: usize, f: &[u8], w: &mut Writer) -> usize
    requires { FacesFront n f.now w.old.to }
    ensures { FacesWrite n f.now w.old result w.new }
{
    if n == 0 {
        w.put(b"fnil");
        return 0;
    }
    w.put(b"(fc ");
    let m = w.formula(Sort::Faces, f);
    w.put_byte(b' ');
    let k = faces(n - 1, &f[m..], w);
    w.put_byte(b')');
    m + k
}

// Writes the context in front of f; how many bytes it takes there.
fn context(f: &[u8], w: &mut Writer) -> usize
    requires { ContextFronts f.now w.old.to }
    ensures { ContextWrites f.now w.old result w.new }
{
    let n = records::get2(f, 0);
    2 + faces(n, &f[2..], w)
}

// Writes the field in front of f; how many bytes it takes there.
fn field(kind: Field, f: &[u8], w: &mut Writer) -> usize
    requires { FieldFronts (field_of kind) f.now w.old.to }
    ensures { FieldWrites (field_of kind) f.now w.old result w.new }
{
    match kind {
        Field::Number => number(f, w),
        Field::Index => number(f, w),
        Field::Context => context(f, w),
        Field::End => w.formula(Sort::Intervals, f),
        Field::Face => w.formula(Sort::Faces, f),
        Field::Interval => w.formula(Sort::Intervals, f),
    }
}

// Writes the operands in front of f, one for each field, and the end of their list.
fn operands(fields: &[Field], f: &[u8], w: &mut Writer)
    requires { ValuesFront (map field_of fields.now) f.now w.old.to }
    ensures { ValuesWrite (map field_of fields.now) f.now w.old w.new }
{
    let Some((kind, rest)) = fields.split_first() else {
        w.put_byte(b')');
        return;
    };
    w.put_byte(b' ');
    let m = field(*kind, f, w);
    operands(rest, &f[m..], w);
}

// The names of the predicates, in document 01's order.
fn predicate_names() -> [&'static [u8]; 15]
    ensures { map (λ x. x.now) result ≡ predicate_names }
{
    [
        b"lt",
        b"le",
        b"interval",
        b"face",
        b"member",
        b"take",
        b"cover",
        b"entails",
        b"boundary",
        b"local",
        b"fforall",
        b"ishift",
        b"isubst",
        b"fshift",
        b"fsubst",
    ]
}

// Writes the name of a predicate.
fn put_predicate(predicate: usize, w: &mut Writer)
    requires { (predicate < 15) × Room w.old.to (get_or predicate_names predicate []) }
    ensures { Writes (get_or predicate_names predicate []) w.old w.new }
{
    let names = predicate_names();
    w.put(names[predicate]);
}

// Writes the judgement of a step.
pub(crate) fn judgement(l: &[u8], c: Cursor, w: &mut Writer)
    requires { Shows l.now c.step c.at (λ s. judgement_text s.judgement) w.old.to }
    ensures { Writes (judgement_text (step_of l.now c.step).judgement) w.old w.new }
{
    let predicate = c.predicate(l);
    w.put_byte(b'(');
    put_predicate(predicate, w);
    operands(kinds::fields_of(predicate), c.operands(l), w);
}
