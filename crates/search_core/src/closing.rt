// The end of a search: what it hands out.
ghost use Rattle.std.specs.Prelude.{List, IfOk};
ghost use Rattle.crew_terms.specs.Limits.{Route as TeamRoute};
ghost use Rattle.search_core.specs.Searching.{state_of};
ghost use Rattle.search_core.specs.Shown.{AreShown};
ghost use Rattle.search_core.specs.Steps.{IsOutcome, IsShownOutcome};

use crate::causes::{Outcome, in_order};
use crate::outlines::outline_with;
use crate::searches::Search;
use search_laws::run_keeps;
use std::alloc::AllocError;

impl<'i> Search<'i> {
    /// Ends the search: its best plan, its bound, its tree with the prices of its leaves, and the causes of its splits, both in
    /// preorder. A root that no step took is bare where the plan leaves no task unassigned. AllocError where there is no memory.
    pub fn close(self) -> Result<Outcome, AllocError>
        ensures outcome { (columns : List TeamRoute)
            → IfOk result (IsOutcome self.entry.instance columns (state_of columns self.entry)) }
        ensures shown { (columns : List TeamRoute) → AreShown columns self.entry →
            IfOk result (IsShownOutcome self.entry.instance columns (state_of columns self.entry)) }
    {
        run_keeps();
        let alloc = *self.prices.allocator();
        let bound = self.bound();
        let bare = self.best() == 0;
        let outline = outline_with(alloc, &self.keyed, &self.prices, bare)?;
        let causes = in_order(alloc, &outline.causes, &self.causes)?;
        Ok(Outcome {
            plan: self.plan,
            bound,
            tree: outline.tree,
            causes,
        })
    }
}
