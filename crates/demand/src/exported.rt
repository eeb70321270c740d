// The C functions.
ghost use Rattle.std.specs.Prelude.{[], ◌∷◌};
ghost use Rattle.calculus.specs.Door.{face as face_call, interval as interval_call, boundary as boundary_call, endpoint as endpoint_call, forall as forall_call, shift as shift_call, substitute as substitute_call, entails as entails_call};
ghost use Rattle.calculus.specs.Desk.{DeskGives};
ghost use Rattle.formula.specs.declared.Sort.TheVariants.{Faces, Intervals};
ghost use Rattle.numbers.specs.Answers.{is_one};
ghost use Rattle.demand.specs.Answering.{c-numbers};
ghost use Rattle.demand.specs.Demand.{Says};

// The desk.
pub fn step_desk(ledger: &[u8]) -> u64
    ensures { DeskGives c-numbers.verdict ledger.now result }
{
    exports::lf_step_desk(ledger)
}

pub fn face(ledger: &mut [u8], d: u64, f: &[u8]) -> u64
    ensures { Says c-numbers ledger.old (record { call = face_call d f.now; answer = result; ledger = ledger.new; outputs = [] }) }
{
    exports::lf_face(ledger, d, f)
}

pub fn interval(ledger: &mut [u8], d: u64, r: &[u8]) -> u64
    ensures { Says c-numbers ledger.old (record { call = interval_call d r.now; answer = result; ledger = ledger.new; outputs = [] }) }
{
    exports::lf_interval(ledger, d, r)
}

pub fn boundary(ledger: &mut [u8], r: &[u8], out0: &mut [u8], out1: &mut [u8]) -> u64
    ensures { Says c-numbers ledger.old (record { call = boundary_call r.now out0.old out1.old; answer = result; ledger = ledger.new; outputs = out0.new ∷ out1.new ∷ [] }) }
{
    exports::lf_boundary(ledger, r, out0, out1)
}

pub fn endpoint(ledger: &mut [u8], d: u64, phi: &[u8], r: &[u8], one: u64) -> u64
    ensures { Says c-numbers ledger.old (record { call = endpoint_call d phi.now r.now (is_one one); answer = result; ledger = ledger.new; outputs = [] }) }
{
    exports::lf_endpoint(ledger, d, phi, r, one)
}

pub fn forall(ledger: &mut [u8], f: &[u8], k: u64, out: &mut [u8]) -> u64
    ensures { Says c-numbers ledger.old (record { call = forall_call f.now k out.old; answer = result; ledger = ledger.new; outputs = out.new ∷ [] }) }
{
    exports::lf_forall(ledger, f, k, out)
}

pub fn shift_face(ledger: &mut [u8], t: &[u8], k: u64, out: &mut [u8]) -> u64
    ensures { Says c-numbers ledger.old (record { call = shift_call Faces t.now k out.old; answer = result; ledger = ledger.new; outputs = out.new ∷ [] }) }
{
    exports::lf_shift_face(ledger, t, k, out)
}

pub fn shift_interval(ledger: &mut [u8], t: &[u8], k: u64, out: &mut [u8]) -> u64
    ensures { Says c-numbers ledger.old (record { call = shift_call Intervals t.now k out.old; answer = result; ledger = ledger.new; outputs = out.new ∷ [] }) }
{
    exports::lf_shift_interval(ledger, t, k, out)
}

pub fn substitute_face(ledger: &mut [u8], t: &[u8], k: u64, r: &[u8], out: &mut [u8]) -> u64
    ensures { Says c-numbers ledger.old (record { call = substitute_call Faces t.now k r.now out.old; answer = result; ledger = ledger.new; outputs = out.new ∷ [] }) }
{
    exports::lf_substitute_face(ledger, t, k, r, out)
}

pub fn substitute_interval(ledger: &mut [u8], t: &[u8], k: u64, r: &[u8], out: &mut [u8]) -> u64
    ensures { Says c-numbers ledger.old (record { call = substitute_call Intervals t.now k r.now out.old; answer = result; ledger = ledger.new; outputs = out.new ∷ [] }) }
{
    exports::lf_substitute_interval(ledger, t, k, r, out)
}

pub fn entails(ledger: &mut [u8], d: u64, a: &[u8], b: &[u8]) -> u64
    ensures { Says c-numbers ledger.old (record { call = entails_call d a.now b.now; answer = result; ledger = ledger.new; outputs = [] }) }
{
    exports::lf_entails(ledger, d, a, b)
}
