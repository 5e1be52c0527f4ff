// The best plan of a step so far.
ghost use Rattle.std.specs.Prelude.{◌≡◌, ◌≤◌, ℕ, None};
ghost use Rattle.crew_terms.specs.Instance.{Instance};
ghost use Rattle.search_terms.specs.Search.{IsKeepable};
ghost use Rattle.node_solver.specs.Plans.{IsBestOf};

use branch_choice::Use;
use crew_instance::{Instance, Plan, unassigned};
use plan_builder::from_uses;
use plan_ruin::{Effort as RuinEffort, rebuild};
use plan_search::{Effort, better};
use std::alloc::{AllocError, Global};

/// So little search betters a plan that uses suggest.
pub(crate) const SHORT: Effort<'static> = Effort {
    iterations: 1_000,
    enough: 0,
    weights: None,
};

/// The plan that a step has found, if it is better than the search's, and how many tasks the best one leaves unassigned.
#[derive(Drop)]
pub(crate) struct BestPlan {
    pub(crate) plan: Option<Plan>,
    pub(crate) unassigned: u32,
}

impl BestPlan {
    /// No plan yet, where the search's leaves so many tasks unassigned.
    pub(crate) fn none(best: u32) -> BestPlan
        ensures plan { result.plan ≡ None }
        ensures unassigned { result.unassigned ≡ best }
    {
        BestPlan {
            plan: None,
            unassigned: best,
        }
    }

    /// Keeps the plan where it is better.
    pub(crate) fn offer(&mut self, plan: Plan)
        ensures best { (i : Instance) (best : ℕ) → IsKeepable i plan → IsBestOf i best self.old
            → IsBestOf i best self.new }
        ensures fewer { self.new.unassigned ≤ self.old.unassigned }
    {
        let count = unassigned(&plan);
        if count < self.unassigned {
            self.unassigned = count;
            self.plan = Some(plan);
        }
    }

    /// The best plan, where the search's is this one.
    pub(crate) fn or<'a>(&'a self, plan: &'a Plan) -> &'a Plan {
        match &self.plan {
            Some(better) => better,
            None => plan,
        }
    }

    /// Keeps the plan that the uses suggest, once it is bettered by a search, where it is better.
    pub(crate) fn try_uses(
        &mut self,
        alloc: Global,
        instance: &Instance,
        uses: &[Use],
        effort: Effort<'_>,
    ) -> Result<(), AllocError>
        ensures best { (best : ℕ) → IsBestOf instance.now best self.old
            → IsBestOf instance.now best self.new }
        ensures fewer { self.new.unassigned ≤ self.old.unassigned }
    {
        let plan = from_uses(alloc, instance, uses)?;
        self.offer(better(alloc, instance, &plan, effort)?);
        Ok(())
    }

    /// Keeps the plan that the uses suggest, once it is ruined and recreated, where it is better.
    pub(crate) fn rebuild_uses(
        &mut self,
        alloc: Global,
        instance: &Instance,
        uses: &[Use],
        enough: u32,
        effort: RuinEffort,
    ) -> Result<(), AllocError>
        ensures best { (best : ℕ) → IsBestOf instance.now best self.old
            → IsBestOf instance.now best self.new }
        ensures fewer { self.new.unassigned ≤ self.old.unassigned }
    {
        let plan = from_uses(alloc, instance, uses)?;
        self.offer(rebuild(alloc, instance, &plan, enough, effort)?);
        Ok(())
    }
}
