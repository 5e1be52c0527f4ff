// Plans from nothing, and from a plan that is given.
ghost use Rattle.std.specs.Prelude.{◌≡◌, ◌≤◌, ◌<◌, length, All, IfOk};
ghost use Rattle.crew_terms.specs.Legal.{IsLegal, IsPacked};
ghost use Rattle.crew_terms.specs.Plan.{unassigned_count};
ghost use Rattle.team_days.specs.Adding.{Keeps};

use crate::schedule::Schedule;
use crew_instance::{Instance, Plan};
use std::alloc::{AllocError, Global};

/// The frozen jobs, as a plan.
pub(crate) fn frozen_plan(alloc: Global, instance: &Instance) -> Result<Plan, AllocError>
    ensures plan { IfOk result (λ p. p ≡ instance.now.frozen) }
    ensures legal { IfOk result (λ p. IsLegal instance.now p) }
{
    let mut plan = Plan::empty(alloc, instance.tasks())?;
    for j in 0..instance.tasks() as u32 {
        if let Some((start, teams)) = instance.frozen(j) {
            plan.assign(j, start, teams)?;
        }
    }
    Ok(plan)
}

/// The tasks by their last start minutes, each with that minute.
pub(crate) fn by_latest(alloc: Global, instance: &Instance) -> Result<Vec<(u32, u32)>, AllocError>
    ensures { IfOk result (λ order. All (λ v. v.1 < length instance.now.tasks) order.items) }
{
    let mut order = Vec::with_capacity(alloc, instance.tasks())?;
    for j in 0..instance.tasks() as u32 {
        order.push((instance.task(j).latest, j))?;
    }
    order.sort()?;
    Ok(order)
}

/// A legal and packed plan: to the frozen jobs each task is added that fits, those first that have to begin soonest, each
/// at the first minute at which it fits, with the teams that lose the fewest minutes by it.
pub fn greedy(alloc: Global, instance: &Instance) -> Result<Plan, AllocError>
    ensures legal { IfOk result (λ p. IsLegal instance.now p) }
    ensures packed { IfOk result (λ p. IsPacked instance.now p) }
{
    let mut schedule = Schedule::new(alloc, instance, frozen_plan(alloc, instance)?)?;
    schedule.place_all(by_latest(alloc, instance)?.as_slice())?;
    schedule.fill()?;
    Ok(schedule.into_plan())
}

/// A legal and packed plan that has each job of the legal plan.
pub fn pack(alloc: Global, instance: &Instance, plan: &Plan) -> Result<Plan, AllocError>
    requires { IsLegal instance.now plan.now }
    ensures legal { IfOk result (λ p. IsLegal instance.now p) }
    ensures packed { IfOk result (λ p. IsPacked instance.now p) }
    ensures keeps { IfOk result (λ p. Keeps plan.now p) }
    ensures fewer { IfOk result (λ p. unassigned_count p ≤ unassigned_count plan.now) }
{
    let mut schedule = Schedule::new(alloc, instance, plan.copy()?)?;
    schedule.fill()?;
    Ok(schedule.into_plan())
}
