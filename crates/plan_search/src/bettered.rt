// A plan that leaves fewer tasks unassigned.
ghost use Rattle.std.specs.Prelude.{◌≡◌, ◌≤◌, IfOk};
ghost use Rattle.crew_terms.specs.Legal.{IsLegal, IsPacked};
ghost use Rattle.crew_terms.specs.Plan.{unassigned_count};
ghost use Rattle.team_days.specs.Adding.{Keeps};

use crate::search::Search;
use crew_instance::{Instance, Plan, unassigned};
use plan_builder::pack;
use plan_check::is_as_good;
use std::alloc::{AllocError, Global};

/// How much a search does: so many iterations at most, and none after it has found a plan that leaves only `enough` tasks
/// unassigned. A task with a greater weight goes out later where another is put in; tasks without a weight weigh 1.
#[derive(Clone, Copy)]
pub struct Effort<'w> {
    pub iterations: u32,
    pub enough: u32,
    pub weights: Option<&'w [u32]>,
}

// The best plan that a search from the plan finds.
fn search(
    alloc: Global,
    instance: &Instance,
    plan: &Plan,
    effort: Effort<'_>,
) -> Result<Plan, AllocError> {
    let mut search = Search::new(alloc, instance, plan, effort.weights)?;
    search.run(effort)?;
    Ok(search.into_best())
}

/// A legal and packed plan that leaves no more tasks unassigned than the legal plan that is given. It is found by guided
/// ejection (Y. Nagata, O. Bräysy, A powerful route minimization heuristic for the vehicle routing problem with time windows,
/// 2009): tasks are put into the orders of the teams, others go out for them, those first that weigh least, and a task weighs
/// more each time that it is left over. It has no clock, and equal calls give equal plans. AllocError where there is no memory.
pub fn better(
    alloc: Global,
    instance: &Instance,
    plan: &Plan,
    effort: Effort<'_>,
) -> Result<Plan, AllocError>
    requires { IsLegal instance.now plan.now }
    ensures legal { IfOk result (λ p. IsLegal instance.now p) }
    ensures packed { IfOk result (λ p. IsPacked instance.now p) }
    ensures fewer { IfOk result (λ p. unassigned_count p ≤ unassigned_count plan.now) }
    // Where there is nothing to do, the jobs of the plan stay.
    ensures none { effort.entry.iterations ≡ 0 → IfOk result (λ p. Keeps plan.now p) }
    ensures enough { unassigned_count plan.now ≤ effort.entry.enough
        → IfOk result (λ p. Keeps plan.now p) }
{
    if effort.iterations == 0 || unassigned(plan) <= effort.enough {
        return pack(alloc, instance, plan);
    }
    let found = search(alloc, instance, plan, effort)?;
    if is_as_good(instance, &found, plan) {
        pack(alloc, instance, &found)
    } else {
        pack(alloc, instance, plan)
    }
}
