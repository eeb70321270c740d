// A program, by what is asked.
ghost use Rattle.steps.specs.Producing.{RunsFor};
ghost use Rattle.programs.specs.Programs.{program_of, Ready};

use crate::Program;
use steps::{Producer, Ran};

// The steps of what is asked about the formulas a and b, whose results are c and e.
pub(crate) fn emit(
    p: &mut Producer,
    program: Program,
    a: &[u8],
    b: &[u8],
    c: &[u8],
    e: &[u8],
) -> Ran
    requires { Ready program a.now b.now c.now e.now }
    ensures { RunsFor p.old (program_of program a.now b.now) result p.new }
{
    match program {
        Program::Bounded(sort, d) => bounded_steps::bounded(p, sort, d, a),
        Program::Entails(d) => implications::entails(p, d, a, b),
        Program::Endpoint(d, one) => implications::endpoint(p, d, a, b, c, e, one),
        Program::Boundary => boundary_steps::boundary(p, a, c, e),
        Program::Forall(k) => forall_steps::forall(p, a, k, c),
        Program::Transform(sort, op) => transforms::transform(p, sort, op, a, b, c),
    }
}
