// The first fault among the jobs of a plan.
ghost use Rattle.std.specs.Prelude.{◌≡◌, ◌≤◌, ◌<◌, ◌↔◌, length, All, IsTrue, MatchOption};
ghost use Rattle.std.specs.List.Sorted.{IsStrictlyIncreasing};
ghost use Rattle.crew_terms.specs.Legal.{IsJob, IsFit};
ghost use Rattle.crew_terms.specs.Verdict.{AreJobsBelow, IsFeasibility, IsJobFault, IsPlanOf, IsVisitFault};
ghost use Rattle.crew_instance.specs.Jobs.{IsFaultAt, IsGoodAt};
ghost use Rattle.crew_instance.specs.Teams.{job_by};

use crate::instances::Instance;
use crate::plans::Plan;
use crate::rules::{is_in_window, is_team_list};
use crew_terms::PlanVerdict;

/// What keeps the team from beginning the task at this minute.
fn fault_of_team(instance: &Instance, j: u32, start: u32, k: u32) -> Option<PlanVerdict>
    requires team { k < length instance.now.teams }
    requires task { j < length instance.now.tasks }
    ensures { MatchOption result (IsFit instance.now j start k)
        (IsVisitFault instance.now j start k) }
{
    if !instance.qualified(k, j) {
        return Some(PlanVerdict::Skill(k, j));
    }
    if !instance.in_shift(k, j, start) {
        return Some(PlanVerdict::Shift(k, j));
    }
    None
}

/// The first fault of a job of task `j`.
fn fault_of_job(instance: &Instance, j: u32, start: u32, teams: &[u32]) -> Option<PlanVerdict>
    requires task { j < length instance.now.tasks }
    requires known { All (λ k. k < length instance.now.teams) teams.now }
    ensures { let job = job_by start teams.now in
        MatchOption result (IsJob instance.now j job) (IsJobFault instance.now j job) }
{
    let task = instance.task(j);
    if !is_in_window(task, start) {
        return Some(PlanVerdict::Window(j));
    }
    if !is_team_list(teams, task.teams) {
        return Some(PlanVerdict::Count(j));
    }
    for k in teams {
        if let Some(fault) = fault_of_team(instance, j, start, *k) {
            return Some(fault);
        }
    }
    None
}

/// The first fault of the job of task `j`, if it has one.
fn fault_at(instance: &Instance, plan: &Plan, j: u32) -> Option<PlanVerdict>
    requires plan { IsPlanOf instance.now plan.now }
    requires task { j < length plan.now }
    ensures { MatchOption result (IsGoodAt instance.now plan.now j)
        (IsFaultAt instance.now plan.now j) }
{
    let start = plan.start(j)?;
    fault_of_job(instance, j, start, plan.teams(j))
}

/// The first fault among the jobs of the plan, by task.
pub(crate) fn fault_of_jobs(instance: &Instance, plan: &Plan) -> Option<PlanVerdict>
    requires { IsPlanOf instance.now plan.now }
    ensures { MatchOption result (AreJobsBelow instance.now plan.now (length plan.now))
        (IsFeasibility instance.now plan.now) }
{
    for j in 0..plan.len() as u32 {
        if let Some(fault) = fault_at(instance, plan, j) {
            return Some(fault);
        }
    }
    None
}
