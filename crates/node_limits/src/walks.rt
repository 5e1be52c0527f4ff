// Walks of limits along the branches of a tree, and back.
ghost use Rattle.std.specs.Prelude.{◌≡◌, ◌≤◌, List, length};
ghost use Rattle.crew_terms.specs.Tree.{CanSplit, child};
ghost use Rattle.node_limits.specs.Trail.{Trail, changed};
ghost use Rattle.node_limits.specs.Walks.{CanBranch, IsBack, walked};
ghost use Rattle.node_limits.specs.declared.walks.Branch.{Branch as TreeBranch};

use crate::limits::Limits;
use crew_terms::{Choice, Pair, Side};

/// A branch of a tree: how the node above is split, and which child it leads to.
#[derive(Clone, Copy, Debug, PartialEq, Eq)]
pub struct Branch {
    pub choice: Choice,
    pub side: Side,
}

/// Changes the limits of a node to those of the child to which the branch leads.
pub fn narrow(limits: &mut Limits<'_>, branch: Branch)
    requires split { CanSplit limits.old.limits branch.choice }
    requires spare { 1 ≤ limits.old.spare }
    ensures { limits.new ≡ changed limits.old (child limits.old.limits branch.choice branch.side) }
{
    match (branch.choice, branch.side) {
        (Choice::Window { task, cut }, Side::First) => {
            let (first, _) = limits.window(task);
            limits.set_window(task, first, cut);
        }
        (Choice::Window { task, cut }, Side::Second) => {
            let (_, last) = limits.window(task);
            limits.set_window(task, cut + 1, last);
        }
        (Choice::Pair { team, task }, Side::First) => limits.set_pair(team, task, Pair::Forbidden),
        (Choice::Pair { team, task }, Side::Second) => limits.set_pair(team, task, Pair::Required),
    }
}

/// Walks along the branches.
pub fn descend(limits: &mut Limits<'_>, branches: &[Branch])
    requires can { CanBranch limits.old.limits branches.now }
    requires spare { length branches.now ≤ limits.old.spare }
    ensures { limits.new ≡ walked limits.old branches.now }
{
    for branch in branches {
        narrow(limits, *branch);
    }
}

/// Takes back as many changes: the limits are those from which as many branches led here.
pub fn ascend(limits: &mut Limits<'_>, branches: usize)
    requires { branches ≤ length limits.old.past }
    ensures { (from : Trail) (path : List TreeBranch) → length path ≡ branches
        → IsBack limits.old (walked from path) → IsBack limits.new from }
{
    for _ in 0..branches {
        limits.undo();
    }
}
