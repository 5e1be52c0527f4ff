// One step of a search.
ghost use Rattle.std.specs.Prelude.{◌≡◌, ◌<◌, [], OnErr, OnOk};
ghost use Rattle.search_core.specs.Searching.{IsOpenKey, limits_of_key};
ghost use Rattle.search_core.specs.Steps.{IsKeyStep};
ghost use Rattle.search_terms.specs.Search.{Extends};
ghost use Rattle.search_terms.specs.declared.TheConstants.{PIVOTS};

use crate::finding::{Finding, explore};
use crate::searches::Search;
use crate::settling::{count_after, keep_plan, put_ending};
use crate::stepping::{closings_are_steps, splits_are_steps};
use column_arena::Columns;
use crew_instance::unassigned;
use search_laws::run_keeps;
use search_terms::PIVOTS;
use search_tree::run_leaves;
use std::alloc::AllocError;

impl<'i> Search<'i> {
    /// Takes the step at the open leaf under the key, with so many pivots at most for its master's run: the leaf is closed or
    /// split. After want of memory the search is as before, and only the columns may have grown.
    pub fn step_with<C: Columns>(
        &mut self,
        key: usize,
        columns: &mut C,
        pivots: u32,
    ) -> Result<(), AllocError>
        requires leaf { IsOpenKey self.old key }
        requires left { 0 < self.old.left }
        ensures ok { OnOk result (IsKeyStep key pivots (C.columns columns.old)
            (C.columns columns.new) self.old self.new) }
        ensures err { OnErr result (self.new ≡ self.old) }
        ensures columns { Extends (limits_of_key [] self.old key) (C.columns columns.old)
            (C.columns columns.new) }
    {
        run_keeps();
        run_leaves();
        closings_are_steps();
        splits_are_steps();
        // It is known from here on that the limits are of an instance.
        let tasks = self.limits.instance().tasks();
        let alloc = *self.prices.allocator();
        let leaf = self.keyed.leaf(key);
        let turns = self.keyed.turns(alloc, leaf.node)?;
        let best = unassigned(&self.plan);
        let effort = self.effort.at(leaf.node, tasks, pivots, self.budget);
        let own = &self.prices[leaf.prices as usize];
        let Finding {
            plan,
            ending,
            script,
        } = explore(
            alloc,
            &mut self.limits,
            &mut self.pricer,
            &turns,
            own,
            leaf.bound,
            &self.plan,
            columns,
            &effort,
            &self.scripted,
            &self.begun,
        )?;
        let now = count_after(best, &plan);
        put_ending(
            &mut self.keyed,
            &mut self.prices,
            &mut self.causes,
            key,
            leaf.prices,
            now,
            ending,
        )?;
        keep_plan(&mut self.plan, plan);
        self.scripted.go_on(script, now);
        self.left -= 1;
        Ok(())
    }

    /// Takes the step with 20,000 pivots, as a planner's search does.
    pub fn step<C: Columns>(&mut self, key: usize, columns: &mut C) -> Result<(), AllocError>
        requires leaf { IsOpenKey self.old key }
        requires left { 0 < self.old.left }
        ensures ok { OnOk result (IsKeyStep key PIVOTS (C.columns columns.old)
            (C.columns columns.new) self.old self.new) }
        ensures err { OnErr result (self.new ≡ self.old) }
        ensures columns { Extends (limits_of_key [] self.old key) (C.columns columns.old)
            (C.columns columns.new) }
    {
        self.step_with(key, columns, PIVOTS)
    }
}
