// The step desk: whether bytes are a ledger, and whether each of its steps follows.
ghost use Rattle.std.specs.Prelude.{◌≡◌, length};
ghost use Rattle.calculus.specs.Rules.{step_at, Follows};
ghost use Rattle.calculus.specs.Desk.{DeskGives};
ghost use Rattle.ledger.specs.Ledger.{steps_of, Led, Points};
ghost use Rattle.ledger.specs.Noting.{Noted};
ghost use Rattle.rules.specs.Standing.{Decides};
ghost use Rattle.desk.specs.Verdicts.{answer_as, Answers};

use crate::{Verdict, claims};
use ledger::{Cursor, places};

// Whether the step follows from its references by the rule of its kind. A step has at most three references.
fn follows_at(l: &[u8], noted: &[u32], c: Cursor) -> bool
    requires { Points l.now c.step c.at × Noted (steps_of l.now) c.step noted.now }
    ensures { Decides result (Follows (steps_of l.now) c.step (step_at (steps_of l.now) c.step)) }
{
    let mut all = [claims::claim_of(l, c); 4];
    let n = c.entry(l).references;
    let claims = &mut all[..n + 1];
    claims::claim_references(l, noted, c, claims);
    rules::follows(l, c.kind(l), claims)
}

// The verdict on the n steps of a ledger.
fn judge_steps(l: &[u8], n: usize) -> Verdict
    requires { Led l.now × (n ≡ length (steps_of l.now)) }
    ensures { DeskGives answer_as l.now result }
{
    let mut noted = [0u32; 10923];
    let mut c = Cursor::start();
    while c.step < n {
        let next = c.next(l);
        if !follows_at(l, &noted, c) {
            return Verdict::Fails(c.step);
        }
        places::note(&mut noted, c.step, c.at);
        c = next;
    }
    Verdict::Passes(c.step)
}

// The step desk.
pub fn step_desk(l: &[u8]) -> Verdict
    ensures { Answers l.now result }
{
    match ledger::well_formed(l) {
        Ok(n) => judge_steps(l, n),
        Err(_) => Verdict::Ill,
    }
}
