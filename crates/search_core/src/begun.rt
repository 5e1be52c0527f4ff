// What a search began with, and plans near to it.
ghost use Rattle.std.specs.Prelude.{◌≡◌, IfOk, IfSome};
ghost use Rattle.crew_terms.specs.Legal.{IsLegal, IsPacked};
ghost use Rattle.crew_terms.specs.Plan.{unassigned_count};
ghost use Rattle.node_solver.specs.Plans.{IsBetterPlan, now_after};

use crew_instance::{Instance, Plan};
use node_solver::RuinEffort;
use plan_again::nearer;
use std::alloc::{AllocError, Global};

/// The plan with which a search began, if one was there, and how much is searched for a plan near to it.
#[derive(Drop)]
pub(crate) struct Begun {
    plan: Option<Plan>,
    near: RuinEffort,
}

impl Begun {
    /// It keeps a copy of the plan.
    pub(crate) fn of(begin: Option<&Plan>, near: RuinEffort) -> Result<Begun, AllocError> {
        let plan = match begin {
            Some(plan) => Some(plan.copy()?),
            None => None,
        };
        Ok(Begun { plan, near })
    }

    /// A plan that leaves as many tasks unassigned, near to the one with which the search began.
    pub(crate) fn nearer_plan(
        &self,
        alloc: Global,
        instance: &Instance,
        found: Plan,
    ) -> Result<Plan, AllocError>
        requires legal { IsLegal instance.now found }
        requires packed { IsPacked instance.now found }
        ensures legal { IfOk result (λ p. IsLegal instance.now p) }
        ensures packed { IfOk result (λ p. IsPacked instance.now p) }
        ensures count { IfOk result (λ p. unassigned_count p ≡ unassigned_count found) }
    {
        match &self.plan {
            Some(old) => nearer(alloc, instance, found, old, self.near),
            None => Ok(found),
        }
    }
}
