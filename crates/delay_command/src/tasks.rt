// The tasks that lines tell of by name.
ghost use Rattle.std.specs.Prelude.{◌≡◌, ◌<◌, length, All, MatchOption, MatchResult};
ghost use Rattle.crew_terms.specs.Legal.{IsLegal};
ghost use Rattle.delay_wave.specs.Waits.{AreWaits};
ghost use Rattle.late_lines.specs.Lines.{AreLateLines};
ghost use Rattle.delay_command.specs.Tasks.{HaltsAtTask, IsDone, late_in, lates_in, task_named};

use crew_instance::{Instance, Plan};
use crew_terms::Name;
use delay_wave::{Late, Waits, wave};
use dossier_terms::Reason;
use late_lines::{Halt, LateLine};
use std::alloc::Global;

/// The number of the task with this name; None exactly where the instance has none.
fn task_named(instance: &Instance, name: &Name) -> Option<u32>
    ensures { MatchOption result (task_named instance.now name.now ≡ length instance.now.tasks)
        (λ j. (j ≡ task_named instance.now name.now) × (j < length instance.now.tasks)) }
{
    for j in 0..instance.tasks() as u32 {
        if instance.task(j).name == *name {
            return Some(j);
        }
    }
    None
}

/// The late task that a line tells; None exactly where the plan does no task of that name.
fn late_in(instance: &Instance, plan: &Plan, line: &LateLine) -> Option<Late>
    requires { length plan.now ≡ length instance.now.tasks }
    ensures { MatchOption result (IsDone instance.now plan.now line.now → ⊥)
        (λ late. IsDone instance.now plan.now line.now × (late ≡ late_in instance.now line.now)) }
{
    let task = task_named(instance, &line.name)?;
    match plan.start(task) {
        Some(_) => Some(Late {
            task,
            end: line.end,
        }),
        None => None,
    }
}

/// The late tasks that the lines tell, or the first line whose task the plan does not do.
fn lates_in(
    alloc: Global,
    instance: &Instance,
    plan: &Plan,
    lines: &[LateLine],
) -> Result<Vec<Late>, Halt>
    requires { length plan.now ≡ length instance.now.tasks }
    ensures { MatchResult result
        (λ lates. All (IsDone instance.now plan.now) lines.now × (lates.items ≡ lates_in instance.now lines.now))
        (HaltsAtTask instance.now plan.now lines.now) }
{
    let mut lates = Vec::with_capacity(alloc, lines.len())?;
    for (n, line) in lines.iter().enumerate() {
        let Some(late) = late_in(instance, plan, line) else {
            return Err(Halt::No {
                line: n as u64 + 1,
                reason: Reason::Name,
            });
        };
        lates.push(late)?;
    }
    Ok(lates)
}

/// The waits of a legal plan whose tasks end as late as the lines tell, or the first line whose task it does not do.
pub(crate) fn waits_in(
    alloc: Global,
    instance: &Instance,
    plan: &Plan,
    lines: &[LateLine],
) -> Result<Waits, Halt>
    requires legal { IsLegal instance.now plan.now }
    requires lines { AreLateLines lines.now }
    ensures { MatchResult result
        (λ waits. All (IsDone instance.now plan.now) lines.now
        × AreWaits instance.now plan.now (lates_in instance.now lines.now) waits)
        (HaltsAtTask instance.now plan.now lines.now) }
{
    let lates = lates_in(alloc, instance, plan, lines)?;
    let waits = wave(alloc, instance, plan, &lates)?;
    Ok(waits)
}
