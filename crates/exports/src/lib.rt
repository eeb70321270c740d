// What C and Rust programs call. Every answer is one number (numbers' specs/Answers): a refusal is negative.
#![tactic(auto)]

ghost use Rattle.std.specs.Prelude.{◌≡◌, [], ◌∷◌, Ok};
ghost use Rattle.calculus.specs.Parse.{read_ledger};
ghost use Rattle.calculus.specs.Door.{reply, face as face_call, interval as interval_call, boundary as boundary_call, endpoint as endpoint_call, forall as forall_call, shift as shift_call, substitute as substitute_call, entails as entails_call};
ghost use Rattle.calculus.specs.Desk.{DeskGives};
ghost use Rattle.kinds.specs.Kinds.{name_bytes};
ghost use Rattle.ledger.specs.Checks.{step_count};
ghost use Rattle.ledger.specs.Ledger.{steps_of};
ghost use Rattle.lookup.specs.Lookup.{operands_start, operands_length, kind_of, reference_of};
ghost use Rattle.formula.specs.Bytes.{encode};
ghost use Rattle.refusals.specs.Refusals.{map};
ghost use Rattle.text.specs.Reading.{read_formula, read_claim};
ghost use Rattle.text.specs.Answers.{delivered, both_delivered};
ghost use Rattle.writing.specs.Answers.{written};
ghost use Rattle.listing.specs.Answers.{line_of};
ghost use Rattle.normal.specs.Answers.{normal_of};
ghost use Rattle.syntax.specs.Syntax.{counted as nodes_counted};
ghost use Rattle.claims.specs.Facesteps.{facesteps};
ghost use Rattle.repeat_test.specs.Repeats.{repeat_test};
ghost use Rattle.numbers.specs.Answers.{count_number, desk_number, repeat_number, part_number, Numbers, Reads, Exhibits, ReadsBoth, is_one};

use formula::Sort;

// How many steps the ledger has, or refusal 1.
pub fn lf_well_formed(ledger: &[u8]) -> u64
    ensures { result ≡ count_number (step_count (read_ledger ledger.now)) }
{
    numbers::counted(ledger::well_formed(ledger))
}

// How many steps the desk passed, refusal 1, or -(10 + 16 * n) where step n is the lowest that does not follow.
pub fn lf_step_desk(ledger: &[u8]) -> u64
    ensures { DeskGives desk_number ledger.now result }
{
    numbers::verdict(desk::step_desk(ledger))
}

// 1 where both ledgers end in an entails step with equal operand bytes, else 0, or refusal 1.
pub fn lf_repeats(l: &[u8], m: &[u8]) -> u64
    ensures { result ≡ repeat_number (repeat_test (read_ledger l.now) (read_ledger m.now)) }
{
    numbers::compared(repeat_test::repeats(l, m))
}

// The step that all dimensions of the face f are below d.
pub fn lf_face(ledger: &mut [u8], d: u64, f: &[u8]) -> u64
    ensures { Numbers (reply (face_call d f.now) ledger.old) result ledger.new [] }
{
    numbers::counted(engine::face(ledger, d as usize, f))
}

// The step that all dimensions of the interval r are below d.
pub fn lf_interval(ledger: &mut [u8], d: u64, r: &[u8]) -> u64
    ensures { Numbers (reply (interval_call d r.now) ledger.old) result ledger.new [] }
{
    numbers::counted(engine::interval(ledger, d as usize, r))
}

// The step of the boundary of the interval r, and its two faces in front of out0 and out1.
pub fn lf_boundary(ledger: &mut [u8], r: &[u8], out0: &mut [u8], out1: &mut [u8]) -> u64
    ensures { Numbers (reply (boundary_call r.now out0.old out1.old) ledger.old) result ledger.new (out0.new ∷ out1.new ∷ []) }
{
    numbers::made(engine::boundary(ledger, r, out0, out1))
}

// The step that the interval r is i0 (one is 0) or i1 wherever the face phi holds.
pub fn lf_endpoint(ledger: &mut [u8], d: u64, phi: &[u8], r: &[u8], one: u64) -> u64
    ensures { Numbers (reply (endpoint_call d phi.now r.now (is_one one)) ledger.old) result ledger.new [] }
{
    let end = numbers::is_one(one);
    numbers::counted(engine::endpoint(ledger, d as usize, phi, r, end))
}

// The step of ∀k of the face f, and the result in front of out.
pub fn lf_forall(ledger: &mut [u8], f: &[u8], k: u64, out: &mut [u8]) -> u64
    ensures { Numbers (reply (forall_call f.now k out.old) ledger.old) result ledger.new (out.new ∷ []) }
{
    numbers::made(engine::forall(ledger, f, k as usize, out))
}

// The step of the face t shifted at k, and the result in front of out.
pub fn lf_shift_face(ledger: &mut [u8], t: &[u8], k: u64, out: &mut [u8]) -> u64
    ensures { Numbers (reply (shift_call Sort.Faces t.now k out.old) ledger.old) result ledger.new (out.new ∷ []) }
{
    numbers::made(engine::shift(ledger, Sort::Faces, t, k as usize, out))
}

// The same of an interval.
pub fn lf_shift_interval(ledger: &mut [u8], t: &[u8], k: u64, out: &mut [u8]) -> u64
    ensures { Numbers (reply (shift_call Sort.Intervals t.now k out.old) ledger.old) result ledger.new (out.new ∷ []) }
{
    numbers::made(engine::shift(ledger, Sort::Intervals, t, k as usize, out))
}

// The step of the face t with the interval r for dimension k, and the result in front of out.
pub fn lf_substitute_face(ledger: &mut [u8], t: &[u8], k: u64, r: &[u8], out: &mut [u8]) -> u64
    ensures { Numbers (reply (substitute_call Sort.Faces t.now k r.now out.old) ledger.old) result ledger.new (out.new ∷ []) }
{
    numbers::made(engine::substitute(ledger, Sort::Faces, t, k as usize, r, out))
}

// The same of an interval.
pub fn lf_substitute_interval(ledger: &mut [u8], t: &[u8], k: u64, r: &[u8], out: &mut [u8]) -> u64
    ensures { Numbers (reply (substitute_call Sort.Intervals t.now k r.now out.old) ledger.old) result ledger.new (out.new ∷ []) }
{
    numbers::made(engine::substitute(ledger, Sort::Intervals, t, k as usize, r, out))
}

// The step that the face a implies the face b over d; 8 where a dimension is not below d, 9 where it does not.
pub fn lf_entails(ledger: &mut [u8], d: u64, a: &[u8], b: &[u8]) -> u64
    ensures { Numbers (reply (entails_call d a.now b.now) ledger.old) result ledger.new [] }
{
    numbers::counted(engine::entails(ledger, d as usize, a, b))
}

// The face that a text is, in front of the output.
pub fn lf_read_face(source: &[u8], out: &mut [u8]) -> u64
    ensures { Reads (delivered (map (encode Sort.Faces) (read_formula Sort.Faces source.now)) out.old) result out.new }
{
    numbers::counted(text::read_formula(Sort::Faces, source, out))
}

// The interval that a text is, in front of the output.
pub fn lf_read_interval(source: &[u8], out: &mut [u8]) -> u64
    ensures { Reads (delivered (map (encode Sort.Intervals) (read_formula Sort.Intervals source.now)) out.old) result out.new }
{
    numbers::counted(text::read_formula(Sort::Intervals, source, out))
}

// The claim that a text is: d, and its faces in front of the outputs.
pub fn lf_read_claim(source: &[u8], a: &mut [u8], b: &mut [u8]) -> u64
    ensures { ReadsBoth (both_delivered (read_claim source.now) a.old b.old) result a.new b.new }
{
    numbers::claim(text::read_claim(source, a, b))
}

// The text of a face, in front of the output.
pub fn lf_write_face(f: &[u8], out: &mut [u8]) -> u64
    ensures { Reads (delivered (written Sort.Faces f.now) out.old) result out.new }
{
    numbers::counted(writing::write_formula(Sort::Faces, f, out))
}

// The text of an interval, in front of the output.
pub fn lf_write_interval(r: &[u8], out: &mut [u8]) -> u64
    ensures { Reads (delivered (written Sort.Intervals r.now) out.old) result out.new }
{
    numbers::counted(writing::write_formula(Sort::Intervals, r, out))
}

// The normal form of a face, in front of the output.
pub fn lf_normal(f: &[u8], out: &mut [u8]) -> u64
    ensures { Reads (delivered (map (encode Sort.Faces) (normal_of f.now)) out.old) result out.new }
{
    numbers::counted(normal::length(normal::normal(f, out)))
}

// The least assignment of d dimensions that satisfies the face a and not the face b, a byte each, in front of the output.
pub fn lf_counterexample(d: u64, a: &[u8], b: &[u8], out: &mut [u8]) -> u64
    ensures { Exhibits d a.now b.now out.old result out.new }
{
    numbers::counted(counterexample::counterexample(d as usize, a, b, out))
}

// The nodes of a face within the producer's limits.
pub fn lf_fence_face(f: &[u8]) -> u64
    ensures { result ≡ count_number (nodes_counted Sort.Faces f.now) }
{
    numbers::counted(syntax::count(Sort::Faces, f))
}

// The nodes of an interval within the producer's limits.
pub fn lf_fence_interval(r: &[u8]) -> u64
    ensures { result ≡ count_number (nodes_counted Sort.Intervals r.now) }
{
    numbers::counted(syntax::count(Sort::Intervals, r))
}

// The line of a step of the ledger, in front of the output; nothing past the last step.
pub fn lf_write_step(ledger: &[u8], step: u64, out: &mut [u8]) -> u64
    ensures { Reads (delivered (line_of (read_ledger ledger.now) step) out.old) result out.new }
{
    numbers::counted(listing::write_step(ledger, step as usize, out))
}

// Where the operands of a step begin in the ledger, and 2^32 times their length; 0 where there is no such step.
pub fn lf_operands(ledger: &[u8], step: u64) -> u64
    ensures { result ≡ part_number (operands_start (steps_of ledger.now) step) (operands_length (steps_of ledger.now) step) }
{
    numbers::part(lookup::locate(ledger, step as usize))
}

// The kind of a step, from 1 to 75; 0 where there is no such step.
pub fn lf_kind(ledger: &[u8], step: u64) -> u64
    ensures { result ≡ kind_of (steps_of ledger.now) step }
{
    lookup::kind(ledger, step as usize) as u64
}

// One more than the step that reference i of a step names; 0 where there is none.
pub fn lf_reference(ledger: &[u8], step: u64, i: u64) -> u64
    ensures { result ≡ reference_of (steps_of ledger.now) step i }
{
    lookup::reference(ledger, step as usize, i as usize) as u64
}

// The name of the rule of a kind, in front of the output; nothing for a number that is no kind.
pub fn lf_rule_name(kind: u64, out: &mut [u8]) -> u64
    ensures { Reads (delivered (Ok (name_bytes kind)) out.old) result out.new }
{
    numbers::counted(lookup::rule_name(kind as usize, out))
}

// All that the program facesteps prints for an input, in front of the output.
pub fn lf_facesteps(input: &[u8], out: &mut [u8]) -> u64
    ensures { Reads (delivered (Ok (facesteps input.now)) out.old) result out.new }
{
    numbers::counted(claims::facesteps(input, out))
}
