// A better plan, brought near to the one that was there before.
ghost use Rattle.std.specs.Prelude.{◌≡◌, IfOk};
ghost use Rattle.crew_terms.specs.Legal.{IsLegal, IsPacked};
ghost use Rattle.crew_terms.specs.Plan.{unassigned_count};

use crew_instance::{Instance, Plan, unassigned};
use plan_ruin::{Effort as RuinEffort, rebuild_near};
use std::alloc::{AllocError, Global};

/// A legal and packed plan that leaves as many tasks unassigned as the one that is given, and has more of the old plan's jobs,
/// where such a one is found; else the one that is given. It has no clock, and equal calls give equal plans. AllocError where
/// there is no memory.
pub fn nearer(
    alloc: Global,
    instance: &Instance,
    plan: Plan,
    old: &Plan,
    effort: RuinEffort,
) -> Result<Plan, AllocError>
    requires legal { IsLegal instance.now plan }
    requires packed { IsPacked instance.now plan }
    ensures legal { IfOk result (λ p. IsLegal instance.now p) }
    ensures packed { IfOk result (λ p. IsPacked instance.now p) }
    ensures count { IfOk result (λ p. unassigned_count p ≡ unassigned_count plan) }
{
    let found = rebuild_near(alloc, instance, &plan, old, effort)?;
    if unassigned(&found) == unassigned(&plan) {
        Ok(found)
    } else {
        Ok(plan)
    }
}
