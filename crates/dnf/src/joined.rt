// The clauses of a fand and of a for, from those of its two parts, which stand one behind the other in front of a list; none
// where they are more than 256 before pruning.
ghost use Rattle.std.specs.Prelude.{◌≡◌, ◌++◌, ◌≤◌, ◌+◌, length, take, drop};
ghost use Rattle.clauses.specs.Normal.{limited, pairs as pairs_of};
ghost use Rattle.clauses.specs.Words.{words};
ghost use Rattle.clauses.specs.Lists.{Lists, node_list};

use crate::{limits, lists, paired};
use clauses::Clause;

// Of a fand: the pairs of the first n clauses with the m behind them, pruned.
fn both(
    list: &mut [Clause],
    n: usize,
    m: usize,
    mask: Clause,
    sorted: &mut [Clause],
) -> Option<usize>
    requires { (n + m + 257 ≤ length list.old) × (256 ≤ length sorted.old) }
    ensures { Lists (limited (words mask) (pairs_of (words mask) (take n list.old) (take m (drop n list.old)))) result list.new }
{
    let behind = n + m;
    let (parts, made) = list.split_at_mut(behind);
    let parts = &parts[..];
    let k = paired::pairs(&parts[..n], &parts[n..], mask, made)?;
    Some(lists::prune(list, behind, k, sorted))
}

// Of a for: the first n clauses and the m behind them, pruned.
fn either(
    list: &mut [Clause],
    n: usize,
    m: usize,
    mask: Clause,
    sorted: &mut [Clause],
) -> Option<usize>
    requires { (n + m + 257 ≤ length list.old) × (256 ≤ length sorted.old) }
    ensures { Lists (limited (words mask) (take n list.old ++ take m (drop n list.old))) result list.new }
{
    let k = n + m;
    if limits::over(k) {
        return None;
    }
    Some(lists::prune(list, 0, k, sorted))
}

// Of a node with a kind byte, 4 for fand and 5 for for.
pub fn node(
    kind: u8,
    list: &mut [Clause],
    n: usize,
    m: usize,
    mask: Clause,
    sorted: &mut [Clause],
) -> Option<usize>
    requires { (n + m + 257 ≤ length list.old) × (256 ≤ length sorted.old) }
    ensures { Lists (node_list (words mask) kind (take n list.old) (take m (drop n list.old))) result list.new }
{
    if kind == 4 {
        return both(list, n, m, mask, sorted);
    }
    either(list, n, m, mask, sorted)
}
