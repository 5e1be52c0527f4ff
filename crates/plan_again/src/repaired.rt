// The last plan, repaired.
ghost use Rattle.std.specs.Prelude.{◌≡◌, ◌≤◌, IfOk};
ghost use Rattle.crew_terms.specs.Legal.{IsLegal, IsPacked};
ghost use Rattle.crew_terms.specs.Plan.{unassigned_count};
ghost use Rattle.team_days.specs.Adding.{Keeps};

use crew_instance::{Instance, Plan};
use plan_builder::{greedy, pack};
use plan_check::is_legal;
use std::alloc::{AllocError, Global};

/// The frozen jobs, as a plan.
fn frozen_plan(alloc: Global, instance: &Instance) -> Result<Plan, AllocError> {
    let mut plan = Plan::empty(alloc, instance.tasks())?;
    for j in 0..instance.tasks() as u32 {
        if let Some((start, teams)) = instance.frozen(j) {
            plan.assign(j, start, teams)?;
        }
    }
    Ok(plan)
}

/// The tasks that a plan assigns, each with its start, in the order of starts.
fn by_start(alloc: Global, plan: &Plan) -> Result<Vec<(u32, u32)>, AllocError> {
    let mut order = Vec::new(alloc);
    for j in 0..plan.len() as u32 {
        if let Some(start) = plan.start(j) {
            order.push((start, j))?;
        }
    }
    order.sort()?;
    Ok(order)
}

/// The legal plan with the last plan's job of task `j`, where it has none and stays legal with it; else the plan as it is.
fn with_last_job(instance: &Instance, plan: Plan, last: &Plan, j: u32) -> Result<Plan, AllocError>
    requires { IsLegal instance.now plan }
    ensures { IfOk result (λ p. IsLegal instance.now p) }
{
    if j as usize >= last.len() || j as usize >= plan.len() || plan.start(j).is_some() {
        return Ok(plan);
    }
    let Some(start) = last.start(j) else {
        return Ok(plan);
    };
    let mut next = plan.copy()?;
    next.assign(j, start, last.teams(j))?;
    if is_legal(instance, &next) {
        Ok(next)
    } else {
        Ok(plan)
    }
}

/// The legal plan with those jobs of the last plan, by their starts, with which it stays legal.
fn with_last_jobs(
    alloc: Global,
    instance: &Instance,
    plan: Plan,
    last: &Plan,
) -> Result<Plan, AllocError>
    requires { IsLegal instance.now plan }
    ensures { IfOk result (λ p. IsLegal instance.now p) }
{
    let mut plan = plan;
    let order = by_start(alloc, last)?;
    for (_, j) in order.iter() {
        plan = with_last_job(instance, plan, last, *j)?;
    }
    Ok(plan)
}

/// A legal and packed plan near to the last one: that one with the tasks that can be added, where it is legal. Else the frozen
/// jobs, its jobs by their starts, each that no longer fits left out, and the tasks that can be added. AllocError where there
/// is no memory.
pub fn repair(alloc: Global, instance: &Instance, last: &Plan) -> Result<Plan, AllocError>
    ensures legal { IfOk result (λ p. IsLegal instance.now p) }
    ensures packed { IfOk result (λ p. IsPacked instance.now p) }
    ensures keeps { IsLegal instance.now last.now → IfOk result (λ p. Keeps last.now p) }
    ensures fewer { IsLegal instance.now last.now
        → IfOk result (λ p. unassigned_count p ≤ unassigned_count last.now) }
{
    if is_legal(instance, last) {
        return pack(alloc, instance, last);
    }
    let frozen = frozen_plan(alloc, instance)?;
    if !is_legal(instance, &frozen) {
        return greedy(alloc, instance);
    }
    let plan = with_last_jobs(alloc, instance, frozen, last)?;
    pack(alloc, instance, &plan)
}
