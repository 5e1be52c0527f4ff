// Frozen jobs: what a builder is given of them, and the instance that they give.
ghost use Rattle.std.specs.Prelude.{◌≡◌, ◌<◌, ◌↔◌, ℕ, None, Some, length, slice_set, OnOk, OnErr, IfErr, IfOk, IsErrOf};
ghost use Rattle.crew_terms.specs.Plan.{empty_plan};
ghost use Rattle.crew_terms.specs.Legal.{IsInWindow};
ghost use Rattle.crew_terms.specs.Rules.{HasNoFrozen};
ghost use Rattle.crew_terms.specs.Verdict.{IsPlanOf};
ghost use Rattle.crew_instance.specs.Draft.{FirstFaultNames, HasBadTeams, filled, instance_of, task_named, with_frozen};
ghost use Rattle.crew_instance.specs.Teams.{job_by};
ghost use Rattle.crew_instance.specs.Rules.{IsFreezeFault, IsFrozenFault};

use crate::builders::Builder;
use crate::faults::BuildFault;
use crate::feasible::feasibility;
use crate::instances::Instance;
use crate::plans::Plan;
use crate::rules::{are_teams, is_in_window, is_team_list};
use crew_laws::{empty_plan_is_feasible, one_feasibility};
use crew_terms::PlanVerdict;

impl Builder {
    /// Freezes a job of task `j`, in place of the frozen job that the task had. It is refused where the start is not in
    /// the task's window, and then where the list of teams does not rise, has not as many teams as the task needs, or
    /// has a number that is no team's. Whether the teams can do all frozen jobs is seen when the instance is made.
    pub fn freeze(&mut self, j: u32, start: u32, teams: &[u32]) -> Result<(), BuildFault>
        requires { j < length self.old.tasks }
        ensures ok { OnOk result (self.new ≡ with_frozen self.old j (job_by start teams.now)) }
        ensures err { OnErr result (self.new ≡ self.old) }
        ensures bad_window { IsErrOf result BuildFault.BadWindow ↔
            ¬ (IsInWindow (instance_of self.old) j (job_by start teams.now)) }
        ensures bad_teams { IsErrOf result BuildFault.BadTeams ↔
            HasBadTeams self.old j (job_by start teams.now) }
        ensures no_other { IfErr result IsFreezeFault }
    {
        let task = &self.tasks[j as usize];
        if !is_in_window(task, start) {
            return Err(BuildFault::BadWindow);
        }
        if !is_team_list(teams, task.teams) || !are_teams(teams, self.teams.len()) {
            return Err(BuildFault::BadTeams);
        }
        self.frozen.lengthen(j as usize + 1)?;
        self.frozen.assign(j, start, teams)?;
        Ok(())
    }
}

/// The task that a plan's first fault names, the first of two; None where the plan is feasible.
pub fn task_of_verdict(verdict: PlanVerdict) -> Option<u32>
    ensures { result ≡ task_named verdict }
{
    match verdict {
        PlanVerdict::Legal => None,
        PlanVerdict::Frozen(j) | PlanVerdict::Window(j) | PlanVerdict::Count(j) => Some(j),
        PlanVerdict::Skill(_, j) | PlanVerdict::Shift(_, j) => Some(j),
        PlanVerdict::Clash(_, j, _) => Some(j),
    }
}

/// Gives an instance that has no frozen job these ones. Where its teams can't do them all, the task is told that their
/// first fault names.
pub(crate) fn give_frozen(instance: Instance, mut frozen: Plan) -> Result<Instance, BuildFault>
    requires free { HasNoFrozen instance }
    requires plan { IsPlanOf instance (filled (length instance.tasks) frozen) }
    ensures ok { IfOk result (λ i.
        i ≡ record instance { frozen = filled (length instance.tasks) frozen }) }
    ensures bad_frozen { (j : ℕ) → (result ≡ Err (BuildFault.BadFrozen j)) ↔
        (FirstFaultNames instance (filled (length instance.tasks) frozen) j
        × ¬ (IsErrOf result BuildFault.OutOfMemory)) }
    ensures free { filled (length instance.tasks) frozen ≡ empty_plan (length instance.tasks) →
        IfErr result (λ fault. fault ≡ BuildFault.OutOfMemory) }
    ensures no_other { IfErr result IsFrozenFault }
{
    empty_plan_is_feasible();
    one_feasibility();
    if frozen.len() == 0 {
        return Ok(instance);
    }
    frozen.lengthen(instance.tasks())?;
    match task_of_verdict(feasibility(&instance, &frozen)) {
        Some(task) => Err(BuildFault::BadFrozen { task }),
        None => Ok(instance.with_frozen(frozen)),
    }
}
