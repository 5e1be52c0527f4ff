// The plan of the required pairs.
ghost use Rattle.std.specs.Prelude.{◌≡◌, ◌<◌, IfOk};
ghost use Rattle.crew_terms.specs.Limits.{tasks_in};
ghost use Rattle.crew_terms.specs.Minutes.{required_teams as teams_required};
ghost use Rattle.search_terms.specs.Closing.{required_plan as plan_required};

use node_limits::{Limits, is_required};
use plan_check::Plan;
use std::alloc::{AllocError, Global};

/// The teams that the node requires at task `j`.
fn required_teams(alloc: Global, limits: &Limits<'_>, j: u32) -> Result<Vec<u32>, AllocError>
    requires { j < tasks_in limits.now.limits }
    ensures { IfOk result (λ v. v.items ≡ teams_required limits.now.limits j) }
{
    let mut teams = Vec::new(alloc);
    for k in 0..limits.instance().teams() as u32 {
        if is_required(limits.pair(k, j)) {
            teams.push(k)?;
        }
    }
    Ok(teams)
}

/// The plan in which each task with required teams is begun by them, at the first minute of its window.
pub(crate) fn required_plan(alloc: Global, limits: &Limits<'_>) -> Result<Plan, AllocError>
    ensures { IfOk result (λ p. p ≡ plan_required limits.now.limits) }
{
    let tasks = limits.instance().tasks();
    let mut plan = Plan::empty(alloc, tasks)?;
    for j in 0..tasks as u32 {
        if limits.required(j) > 0 {
            let teams = required_teams(alloc, limits, j)?;
            let (start, _) = limits.window(j);
            plan.assign(j, start, teams.as_slice())?;
        }
    }
    Ok(plan)
}
