// The line `tree`: the numbers of a branch tree.
ghost use Rattle.std.specs.Prelude.{[], IfOk};
ghost use Rattle.dossier_terms.specs.Reading.{Nodes};
ghost use Rattle.dossier_terms.specs.Ranges.{IsCounts};
ghost use Rattle.cert_checker.specs.Due.{Awaits, IsAwaited, IsRoot, IsStepWithRoom, draft_of};
ghost use Rattle.cert_checker.specs.Rules.{TellsCounts};

use crate::due::{BegunDossier, Due, Step};
use crate::rooms::{TreeRoom, room_for};
use cert_format::{fault_is_refused, read_tree};
use crew_instance::unassigned;
use crew_terms::TreeCounts;
use dossier_terms::Reason;
use field_table::LineWords;
use line_in::Refusal;
use node_limits::Limits;
use std::alloc::{AllocError, Global};
use tree_walk::Walk;

/// Judges the numbers of a tree: they must fit each other, the budget and the bound.
fn judge_counts(draft: &BegunDossier, claimed: TreeCounts) -> Result<(), Reason>
    requires { IsCounts claimed }
    ensures { TellsCounts (draft_of draft.now) claimed result }
{
    if claimed.closed + claimed.left_open != claimed.splits + 1 {
        return Err(Reason::Count);
    }
    let spent = claimed.splits + claimed.closed;
    if spent > draft.base.nodes {
        return Err(Reason::Budget);
    }
    if draft.bound < unassigned(&draft.plan) && spent != draft.base.nodes {
        return Err(Reason::Budget);
    }
    Ok(())
}

/// What is due behind the line `tree`: the root of the tree. All memory is taken that the lines of the tree want: for the
/// splits above a node, as deep as is claimed, for the numbers of a leaf, and for the sums of a cause's shares. Of the last
/// two the room that is kept is taken, where it fits.
fn begin_tree(
    alloc: Global,
    kept: Option<TreeRoom>,
    mut draft: Box<BegunDossier>,
    claimed: TreeCounts,
) -> Result<Due, AllocError>
    requires root { IsRoot draft.value.base.instance draft.value.limits }
    requires counts { IsCounts claimed }
    ensures { IfOk result (λ due. Awaits due (Nodes (draft_of draft.value) claimed [])) }
{
    let depth = claimed.depth as usize;
    let held = &mut *draft;
    let mut limits = Limits::wake(&held.base.instance, held.limits.take(alloc));
    limits.reserve(depth)?;
    let room = room_for(alloc, kept, &limits)?;
    held.limits = limits.rest();
    let walk = Walk::open(alloc, depth)?;
    let tree = room.hold(alloc, draft, claimed, walk)?;
    Ok(Due::Node { tree })
}

/// The line `tree`.
pub fn tree_line(
    alloc: Global,
    room: &mut Option<TreeRoom>,
    draft: Box<BegunDossier>,
    words: LineWords<'_>,
) -> Result<Step, Refusal>
    requires { IsAwaited (Due.Tree draft) }
    ensures { IsStepWithRoom (Due.Tree draft) words.entry result }
{
    fault_is_refused();
    let claimed = read_tree(words)?;
    judge_counts(&draft, claimed)?;
    let due = begin_tree(alloc, room.take(), draft, claimed)?;
    Ok(Step::More(due))
}
