// The lines of a plan: `plan`, and each `do`.
ghost use Rattle.dossier_terms.specs.BodyTable.{after_job};
ghost use Rattle.cert_checker.specs.Due.{IsAwaited, IsBegun, IsStep, IsStepWithRoom, Tells, draft_of};

use crate::due::{BegunDossier, Due, Step};
use cert_format::{JobLine, PlanLine, fault_is_refused, read_job, read_plan};
use crew_instance::TurnRoom;
use crew_terms::PlanVerdict;
use dossier_terms::Reason;
use field_table::LineWords;
use head_check::numbers::team_list;
use line_in::Refusal;
use plan_check::check_plan_in;
use std::alloc::Global;

/// What is said of the plan, which has all its jobs.
// Once a dossier, so that what it needs is not set up for each job.
#[inline(never)]
fn judge_plan(turns: &mut TurnRoom, draft: Box<BegunDossier>) -> Result<Step, Reason>
    requires { IsBegun draft.value }
    ensures { Tells (after_job (draft_of draft.value) 0 0) result }
{
    let held = &*draft;
    match check_plan_in(&held.base.instance, &held.plan, turns) {
        PlanVerdict::Legal => Ok(Step::More(Due::Tree { draft })),
        verdict => Err(Reason::Plan(verdict)),
    }
}

/// What is said where so many jobs are to come, of tasks from `from` on: where there is none, of the plan.
#[inline(always)]
fn judge_job(
    turns: &mut TurnRoom,
    draft: Box<BegunDossier>,
    more: u64,
    from: u64,
) -> Result<Step, Reason>
    requires { IsBegun draft.value }
    ensures { Tells (after_job (draft_of draft.value) more from) result }
{
    if more > 0 {
        return Ok(Step::More(Due::Job {
            draft,
            more: more - 1,
            from,
        }));
    }
    judge_plan(turns, draft)
}

/// The line `plan`.
pub fn plan_line(
    turns: &mut TurnRoom,
    mut draft: Box<BegunDossier>,
    words: LineWords<'_>,
) -> Result<Step, Reason>
    requires { IsAwaited (Due.Plan draft) }
    ensures { IsStep (Due.Plan draft) words.entry result }
{
    fault_is_refused();
    let held = &mut *draft;
    let tasks = held.base.instance.tasks() as u32;
    let PlanLine { unassigned, bound } = read_plan(words, tasks)?;
    held.bound = bound;
    judge_job(turns, draft, (tasks - unassigned) as u64, 0)
}

/// A line `do`.
pub fn job_line(
    alloc: Global,
    turns: &mut TurnRoom,
    mut draft: Box<BegunDossier>,
    more: u64,
    from: u64,
    words: LineWords<'_>,
) -> Result<Step, Refusal>
    requires { IsAwaited (Due.Job draft more from) }
    ensures { IsStepWithRoom (Due.Job draft more from) words.entry result }
{
    fault_is_refused();
    let held = &mut *draft;
    let teams = held.base.instance.teams() as u32;
    let tasks = held.base.instance.tasks() as u32;
    let JobLine { task, start, teams } = read_job(words, teams, tasks)?;
    if (task as u64) < from {
        return Err(Refusal::No(Reason::Shape));
    }
    let teams = team_list(alloc, &teams)?;
    held.plan.assign_list(task, start, teams);
    Ok(judge_job(turns, draft, more, task as u64 + 1)?)
}
