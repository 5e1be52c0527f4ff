// Plans by their jobs.
ghost use Rattle.std.specs.Prelude.{◌≡◌, ◌≤◌, ◌<◌, ◌↔◌, All, IfOk, IsTrue, length};
ghost use Rattle.crew_terms.specs.Verdict.{IsPlanOf};
ghost use Rattle.crew_terms.specs.declared.TheConstants.{MOST_TASKS};

use crate::faults::FixtureFault;
use crew_instance::{Instance, Plan};
use std::alloc::Global;

/// A job: its task, its start minute and its teams.
pub type Job<'a> = (u32, u32, &'a [u32]);

/// The plan for so many tasks with these jobs.
pub fn plan_of(alloc: Global, tasks: usize, jobs: &[Job<'_>]) -> Result<Plan, FixtureFault>
    requires { tasks ≤ MOST_TASKS }
    ensures { IfOk result (λ plan. length plan ≡ tasks) }
{
    let mut plan = Plan::empty(alloc, tasks)?;
    for (task, start, teams) in jobs {
        if *task as usize >= tasks {
            return Err(FixtureFault::NoTask);
        }
        plan.assign(*task, *start, teams)?;
    }
    Ok(plan)
}

fn are_below(teams: &[u32], n: usize) -> bool
    ensures { IsTrue result ↔ All (λ k. k < n) teams.now }
{
    teams.iter().all(|k| (*k as usize) < n)
}

/// Whether the plan is one of the instance: it has a job or none for each task, and each of its teams is known.
pub fn is_plan_of(instance: &Instance, plan: &Plan) -> bool
    ensures { IsTrue result → IsPlanOf instance.now plan.now }
{
    for j in 0..plan.len() as u32 {
        if !are_below(plan.teams(j), instance.teams()) {
            return false;
        }
    }
    plan.len() == instance.tasks()
}
