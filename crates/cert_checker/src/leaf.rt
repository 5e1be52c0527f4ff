// The lines of a leaf's numbers, and the line `end`.
ghost use Rattle.cert_checker.specs.Due.{IsAwaited, IsStep};

use crate::due::{Due, EndedDossier, Step, TreeDraft};
use crate::node::leave;
use cert_format::{fault_is_refused, read_end};
use crew_terms::TreeCounts;
use dossier_terms::Reason;
use field_table::LineWords;
use leaf_check::{Goal, LeafStep};
use node_limits::Limits;
use std::alloc::Global;

/// A line of the numbers of a leaf.
pub fn number_line(
    alloc: Global,
    mut tree: Box<TreeDraft>,
    is_closed: bool,
    words: LineWords<'_>,
) -> Result<Step, Reason>
    requires { IsAwaited (Due.Leaf tree is_closed) }
    ensures { IsStep (Due.Leaf tree is_closed) words.entry result }
{
    let held = &mut *tree;
    let draft = &mut *held.draft;
    let goal = Goal {
        form: draft.base.form,
        bound: draft.bound,
        unassigned: held.unassigned,
        is_closed,
    };
    let limits = Limits::wake(&draft.base.instance, draft.limits.take(alloc));
    let step = held.reader.line(&limits, goal, words)?;
    draft.limits = limits.rest();
    match step {
        LeafStep::More => Ok(Step::More(Due::Leaf { tree, is_closed })),
        LeafStep::Done => Ok(Step::More(leave(alloc, tree, is_closed))),
    }
}

/// The line `end`.
pub fn end_line(
    tree: Box<TreeDraft>,
    seen: TreeCounts,
    words: LineWords<'_>,
) -> Result<Step, Reason>
    requires { IsAwaited (Due.End tree seen) }
    ensures { IsStep (Due.End tree seen) words.entry result }
{
    fault_is_refused();
    read_end(words)?;
    if seen == tree.claimed {
        let counts = seen;
        Ok(Step::Whole(EndedDossier { tree, counts }))
    } else {
        Err(Reason::Count)
    }
}
