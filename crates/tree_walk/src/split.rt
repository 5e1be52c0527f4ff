// Whether a node can be split, and the second child of a split.
ghost use Rattle.std.specs.Prelude.{◌≡◌, ◌<◌, ◌↔◌, IsTrue};
ghost use Rattle.crew_terms.specs.Limits.{tasks_in};
ghost use Rattle.tree_walk.specs.Splits.{second_of};
ghost use Rattle.crew_terms.specs.Tree.{IsCut};

use crew_terms::Side;
use node_limits::{Branch, Limits};

/// Whether the window of the task can be split at the minute: it begins at the minute or before it, and ends after it.
pub fn is_cut(limits: &Limits<'_>, task: u32, cut: u32) -> bool
    requires { task < tasks_in limits.now.limits }
    ensures { IsTrue result ↔ IsCut limits.now.limits task cut }
{
    let (first, last) = limits.window(task);
    first <= cut && cut < last
}

/// The second child of the same split; None where the branch leads to it already.
pub(crate) fn second(branch: Branch) -> Option<Branch>
    ensures { result ≡ second_of branch }
{
    match branch.side {
        Side::First => Some(Branch {
            choice: branch.choice,
            side: Side::Second,
        }),
        Side::Second => None,
    }
}
