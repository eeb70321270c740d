// face and interval, once over the sort.
ghost use Rattle.std.specs.Prelude.{[], ◌≤◌};
ghost use Rattle.ledger.specs.Ledger.{Led};
ghost use Rattle.steps.specs.Trees.{Known};
ghost use Rattle.replies.specs.Replying.{said, Replies};
ghost use Rattle.runs.specs.Calls.{bounded_call};

use formula::Sort;
use programs::Program;
use refusals::Refusal;

// The call once questions 1 to 4 are answered.
pub fn bounded(l: &mut [u8], sort: Sort, d: usize, f: &[u8]) -> Result<usize, Refusal>
    requires { Led l.old × Known sort f.now × (d ≤ 255) }
    ensures { Replies (bounded_call sort d f.now) l.old (said result) l.new [] }
{
    let end = ledger::used(l);
    let r = programs::run(l, Program::Bounded(sort, d), f, f, f, f);
    replies::ending(l, end, r)
}
