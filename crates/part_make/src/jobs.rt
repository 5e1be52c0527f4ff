// The frozen jobs of some of an instance's tasks.
ghost use Rattle.std.specs.Prelude.{◌≡◌, ◌≤◌, ◌<◌, All, IfOk, None, OnOk, length, slice_set};
ghost use Rattle.crew_terms.specs.Plan.{job_of};
ghost use Rattle.crew_terms.specs.declared.TheConstants.{MOST_TASKS};
ghost use Rattle.part_terms.specs.Parts.{cut_down};

use crew_instance::{Instance, Plan};
use std::alloc::{AllocError, Global};

/// Gives task `k` of a plan, which has no job there, the frozen job of task `j`, if it has one.
fn keep_job(plan: &mut Plan, whole: &Instance, j: u32, k: u32) -> Result<(), AllocError>
    requires there { j < length whole.now.tasks }
    requires here { k < length plan.old }
    requires none { job_of plan.old k ≡ None }
    ensures { OnOk result (plan.new ≡ slice_set plan.old k (job_of whole.now.frozen j)) }
{
    let Some((start, teams)) = whole.frozen(j) else {
        return Ok(());
    };
    plan.assign(k, start, teams)?;
    Ok(())
}

/// The frozen jobs of the tasks that have these numbers.
pub(crate) fn frozen_of(alloc: Global, whole: &Instance, tasks: &[u32]) -> Result<Plan, AllocError>
    requires known { All (λ t. t < length whole.now.tasks) tasks.now }
    requires few { length tasks.now ≤ MOST_TASKS }
    ensures { IfOk result (λ plan. plan ≡ cut_down whole.now.frozen tasks.now) }
{
    let mut plan = Plan::empty(alloc, tasks.len())?;
    for k in 0..tasks.len() {
        keep_job(&mut plan, whole, tasks[k], k as u32)?;
    }
    Ok(plan)
}
