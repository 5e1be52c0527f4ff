// Searches from their start to their end.
ghost use Rattle.std.specs.Prelude.{◌≤◌, ◌<◌, List, IfNone, IfOk, IfSome, option_copied};
ghost use Rattle.crew_terms.specs.Legal.{IsLegal};
ghost use Rattle.crew_terms.specs.Limits.{Route as TeamRoute, root_limits};
ghost use Rattle.crew_terms.specs.declared.TheConstants.{MOST_NODES};
ghost use Rattle.node_queue.specs.Waits.{IsLeast};
ghost use Rattle.plan_again.specs.Stays.{StaysOrBetters};
ghost use Rattle.search_core.specs.Searching.{IsDueKey, IsOpenKey, state_of};
ghost use Rattle.search_core.specs.Solved.{IsGrown};
ghost use Rattle.search_core.specs.Steps.{IsDone, IsSolved};

use crate::causes::Outcome;
use crate::effort::Effort;
use crate::searches::Search;
use column_arena::Columns;
use crew_instance::{Instance, Plan};
use search_tree::{least_bounds, leaves_keep_order};
use std::alloc::{AllocError, Global};

impl<'i> Search<'i> {
    /// The oldest open leaf of least bound, where a step is left and a better plan is not ruled out yet; None where the search
    /// is done.
    pub fn due(&self) -> Option<usize>
        ensures leaf { IfSome result (IsOpenKey self.now) }
        ensures least { IfSome result (IsLeast self.now.keyed.waits) }
        ensures oldest { IfSome result (IsDueKey self.now) }
        ensures left { IfSome result (λ _. 0 < self.now.left) }
        ensures better { (columns : List TeamRoute)
            → IfSome result (λ _. IsDone self.now.instance (state_of columns self.now) → ⊥) }
        ensures done { (columns : List TeamRoute)
            → IfNone result (IsDone self.now.instance (state_of columns self.now)) }
    {
        least_bounds();
        leaves_keep_order();
        // What always holds of the tree is known from here on.
        let _ = self.keyed.len();
        if self.left == 0 {
            return None;
        }
        if self.bound() == self.best() {
            return None;
        }
        self.keyed.least()
    }
}

/// Searches the instance with so many steps, each at the oldest open leaf of least bound, until no better plan is possible or
/// no step is left. The columns are used, and routes of the instance may be added to them. Where a legal plan is there to begin
/// with, the search's plan leaves no more tasks unassigned, and has each of its jobs where it leaves as many. AllocError where
/// there is no memory.
pub fn solve<C: Columns>(
    alloc: Global,
    instance: &Instance,
    nodes: u32,
    begin: Option<&Plan>,
    columns: &mut C,
    effort: Effort,
) -> Result<Outcome, AllocError>
    requires few { nodes ≤ MOST_NODES }
    requires begin { IfSome (option_copied begin) (λ p. IsLegal instance.now p) }
    ensures outcome { IfOk result (IsSolved instance.now nodes (C.columns columns.old)
        (C.columns columns.new)) }
    ensures columns { IsGrown (C.columns columns.old) (C.columns columns.new) }
    ensures stays { IfOk result (λ o. StaysOrBetters (option_copied begin.entry) o.plan) }
{
    let mut search = Search::new(alloc, instance, nodes, begin, effort)?;
    while let Some(key) = search.due() {
        search.step(key, columns)?;
    }
    search.close()
}
