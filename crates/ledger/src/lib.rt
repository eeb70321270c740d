// A ledger's bytes, read: a length, records, zeros.
#![tactic(auto)]

mod check;
pub mod places;
mod steps;

ghost use Rattle.std.specs.Prelude.{◌≡◌, ◌+◌, ◌*◌, ◌<◌, suc, length, get_or};
ghost use Rattle.calculus.specs.Table.{predicate};
ghost use Rattle.calculus.specs.Rules.{step_at, judgement_at};
ghost use Rattle.calculus.specs.Record.{operand_bytes};
ghost use Rattle.kinds.specs.Kinds.{number_of};
ghost use Rattle.ledger.specs.Ledger.{steps_of, place_of, Points};

pub use check::well_formed;
use kinds::Entry;
pub use steps::{seek, used};

// A step of a ledger: its number, and where its record begins.
#[derive(Clone, Copy)]
pub struct Cursor {
    pub step: usize,
    pub at: usize,
}

impl Cursor {
    // Step 0.
    pub fn start() -> Cursor
        ensures { (result.step ≡ 0) × (result.at ≡ 4) }
    {
        Cursor { step: 0, at: 4 }
    }

    // The next step, or the end.
    pub fn next(self, l: &[u8]) -> Cursor
        requires { Points l.now self.step self.at }
        ensures { (result.step ≡ suc self.step) × (result.at ≡ place_of (steps_of l.now) (suc self.step)) }
    {
        let at = self.at;
        let n = records::get4(l, at);
        Cursor {
            step: self.step + 1,
            at: at + 4 + n,
        }
    }

    // Its kind.
    pub fn kind(self, l: &[u8]) -> usize
        requires { Points l.now self.step self.at }
        ensures { result ≡ (step_at (steps_of l.now) self.step).kind }
    {
        let at = self.at;
        records::get2(l, at + 4)
    }

    // Its reference j.
    pub fn reference(self, l: &[u8], j: usize) -> usize
        requires { Points l.now self.step self.at × (j < length (step_at (steps_of l.now) self.step).references) }
        ensures { result ≡ get_or (step_at (steps_of l.now) self.step).references j 0 }
    {
        let at = self.at;
        records::get4(l, at + 6 + 4 * j)
    }

    // What the table of kinds says of its kind.
    #[tactic(auto, using(crate::proofs::PointLaws::entries))]
    pub fn entry(self, l: &[u8]) -> Entry
        requires { Points l.now self.step self.at }
        ensures { (result.references ≡ length (step_at (steps_of l.now) self.step).references) × (result.predicate ≡ number_of (predicate (judgement_at (steps_of l.now) self.step))) }
    {
        kinds::entry_of(self.kind(l)).unwrap()
    }

    // The number of its predicate.
    pub fn predicate(self, l: &[u8]) -> usize
        requires { Points l.now self.step self.at }
        ensures { result ≡ number_of (predicate (judgement_at (steps_of l.now) self.step)) }
    {
        self.entry(l).predicate
    }

    // Where its operands begin.
    pub fn operands_from(self, l: &[u8]) -> usize
        requires { Points l.now self.step self.at }
        ensures { result ≡ self.at + 6 + 4 * length (step_at (steps_of l.now) self.step).references }
    {
        let at = self.at;
        at + 6 + 4 * self.entry(l).references
    }

    // The bytes of its judgement, a part of the ledger.
    pub fn operands(self, l: &[u8]) -> &[u8]
        requires { Points l.now self.step self.at }
        ensures { result.now ≡ operand_bytes (judgement_at (steps_of l.now) self.step) }
    {
        let from = self.operands_from(l);
        let end = self.next(l);
        let to = end.at;
        &l[from..to]
    }
}
