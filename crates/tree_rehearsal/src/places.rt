// The limits of nodes of a rehearsal.
ghost use Rattle.std.specs.Prelude.{IsTrue};
ghost use Rattle.crew_terms.specs.Decided.{MayBegin};
ghost use Rattle.crew_terms.specs.Tree.{IsCut, IsFreePair};
ghost use Rattle.search_terms.specs.Choice.{IsValidChoice};

use crew_instance::Instance;
use crew_terms::{Choice, Pair};
use node_limits::{Branch, Limits, narrow};
use std::alloc::{AllocError, Global};

// Whether the window can be cut so.
fn is_cut(limits: &Limits<'_>, task: u32, cut: u32) -> bool
    ensures { IsTrue result → IsCut limits.now.limits task cut }
{
    if task as usize >= limits.instance().tasks() {
        return false;
    }
    let (from, until) = limits.window(task);
    from <= cut && cut < until
}

// Whether nothing is said of the pair.
fn is_free(limits: &Limits<'_>, team: u32, task: u32) -> bool
    ensures { IsTrue result → IsFreePair limits.now.limits team task }
{
    let instance = limits.instance();
    if task as usize >= instance.tasks() || team as usize >= instance.teams() {
        return false;
    }
    match limits.pair(team, task) {
        Pair::Free => true,
        Pair::Forbidden | Pair::Required => false,
    }
}

// Whether the team may begin the task at its first minute there.
fn may_begin(limits: &Limits<'_>, team: u32, task: u32) -> bool
    requires { IsFreePair limits.now.limits team task }
    ensures { IsTrue result → MayBegin limits.now.limits team task }
{
    match limits.minutes(team, task) {
        Some((first, _)) => limits.may_visit(team, task, first),
        None => false,
    }
}

/// Whether a search may split the node by the choice.
pub(crate) fn is_valid(limits: &Limits<'_>, choice: Choice) -> bool
    ensures { IsTrue result → IsValidChoice limits.now.limits choice }
{
    match choice {
        Choice::Window { task, cut } => is_cut(limits, task, cut),
        Choice::Pair { team, task } => is_free(limits, team, task) && may_begin(limits, team, task),
    }
}

/// The limits to which branches lead from the root; None where some can't be made.
pub(crate) fn limits_at<'i>(
    alloc: Global,
    instance: &'i Instance,
    branches: &[Branch],
) -> Result<Option<Limits<'i>>, AllocError> {
    let mut limits = Limits::root(alloc, instance)?;
    for branch in branches {
        if !is_valid(&limits, branch.choice) {
            return Ok(None);
        }
        limits.reserve(1)?;
        narrow(&mut limits, *branch);
    }
    Ok(Some(limits))
}
