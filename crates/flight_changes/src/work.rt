// What the teams can do of jobs by names.
ghost use Rattle.std.specs.Prelude.{◌≡◌, ◌<◌, true, [], None, All, IfOk, OnOk, filter, length, map, option_copied, slice_index_or, slice_set};
ghost use Rattle.crew_terms.specs.Instance.{no_task};
ghost use Rattle.crew_terms.specs.Plan.{job_of};
ghost use Rattle.day_terms.specs.Instances.{day_instance, plan_of_jobs, task_number, team_number};
ghost use Rattle.day_terms.specs.State.{has_team};
ghost use Rattle.day_terms.specs.Work.{faulty_job, first_by_task, lesser_by_task, needs_team, with_frozen};
ghost use Rattle.flight_changes.specs.Limits.{AreDoable, AreTeamsKnown};

use crate::job_laws::first_fault_is_told;
use crate::jobs::{NamedJob, first_job_of, has_job_of};
use crate::lists::Lists;
use crew_instance::{Instance, Plan, feasibility, task_of_verdict};
use crew_terms::Name;
use std::alloc::AllocError;

impl Lists {
    /// The number of the team that has the name.
    fn number_of_team(&self, name: &Name) -> u32
        requires { has_team self.now name.now ≡ true }
        ensures { result ≡ team_number self.now name.now }
    {
        self.teams.get_index_of(name).unwrap() as u32
    }

    /// The numbers of teams.
    fn team_numbers(&self, teams: &[Name]) -> Result<Vec<u32>, AllocError>
        requires { All (λ name. has_team self.now name ≡ true) teams.now }
        ensures { IfOk result (λ numbers. numbers.items ≡ map (team_number self.now) teams.now) }
    {
        let mut numbers = Vec::with_capacity(self.alloc, teams.len())?;
        for team in teams {
            numbers.push(self.number_of_team(team))?;
        }
        Ok(numbers)
    }

    /// The number of the task that has the name; as many as there are tasks, where none has it.
    fn number_of_task(&self, name: &Name) -> usize
        ensures { result ≡ task_number self.now name.now }
    {
        let tasks = self.tasks.len();
        self.tasks.get_index_of(name).unwrap_or(tasks)
    }

    /// Of the job that was found and this one, the one whose task has the lesser number.
    fn lesser_by_task<'a>(
        &self,
        found: Option<&'a NamedJob>,
        job: &'a NamedJob,
    ) -> Option<&'a NamedJob>
        ensures { option_copied result ≡
            lesser_by_task self.now (option_copied found.entry) job.now }
    {
        let Some(first) = found else {
            return Some(job);
        };
        if self.number_of_task(&job.task()) < self.number_of_task(&first.task()) {
            Some(job)
        } else {
            Some(first)
        }
    }

    /// Of the jobs that need the team, the one whose task has the least number.
    pub(crate) fn first_job_with<'a>(
        &self,
        jobs: &'a [NamedJob],
        team: &Name,
    ) -> Option<&'a NamedJob>
        ensures { option_copied result ≡
            first_by_task self.now (filter (needs_team team.now) jobs.now) }
    {
        let mut first = None;
        for job in jobs {
            if job.needs(team) {
                first = self.lesser_by_task(first, job);
            }
        }
        first
    }

    /// The name of task `j`.
    fn task_name(&self, j: u32) -> Name
        requires { j < length self.now.tasks }
        ensures { result ≡ (slice_index_or self.now.tasks j no_task).name }
    {
        self.tasks.get_index(j as usize).unwrap().1.name
    }

    /// Assigns task `j`, which has no job, the one of its name, if there is one.
    fn assign_job(&self, plan: &mut Plan, j: u32, jobs: &[NamedJob]) -> Result<(), AllocError>
        requires known { All (AreTeamsKnown self.now) jobs.now }
        requires task { j < length self.now.tasks }
        requires whole { length plan.old ≡ length self.now.tasks }
        requires free { job_of plan.old j ≡ None }
        ensures { OnOk result (plan.new ≡
            slice_set plan.old j (job_of (plan_of_jobs self.now jobs.now) j)) }
    {
        let task = self.task_name(j);
        if let Some(job) = first_job_of(jobs, &task) {
            let teams = self.team_numbers(job.teams())?;
            plan.assign(j, job.start(), &teams)?;
        }
        Ok(())
    }

    /// The plan that has for each task the job of its name, if there is one.
    pub(crate) fn plan_of(&self, jobs: &[NamedJob]) -> Result<Plan, AllocError>
        requires { All (AreTeamsKnown self.now) jobs.now }
        ensures { IfOk result (λ plan. plan ≡ plan_of_jobs self.now jobs.now) }
    {
        let mut plan = Plan::empty(self.alloc, self.tasks.len())?;
        for j in 0..self.tasks.len() as u32 {
            self.assign_job(&mut plan, j, jobs)?;
        }
        Ok(plan)
    }

    /// The first task of which the teams can't do the job, if these jobs are to be done; a missing travel time counts as 0.
    pub(crate) fn faulty_job(&self, jobs: &[NamedJob]) -> Result<Option<Name>, AllocError>
        requires { All (AreTeamsKnown self.now) jobs.now }
        ensures task { IfOk result (λ task. task ≡ faulty_job self.now jobs.now) }
        ensures doable { IfOk result (λ task. task ≡ None → AreDoable self.now jobs.now) }
    {
        let instance = self.instance()?;
        self.faulty_job_in(&instance, jobs)
    }

    /// The same, where the instance of the lists is at hand.
    fn faulty_job_in(
        &self,
        instance: &Instance,
        jobs: &[NamedJob],
    ) -> Result<Option<Name>, AllocError>
        requires instance { instance.now ≡ day_instance (record self.now { frozen = [] }) }
        requires known { All (AreTeamsKnown self.now) jobs.now }
        ensures task { IfOk result (λ task. task ≡ faulty_job self.now jobs.now) }
        ensures doable { IfOk result (λ task. task ≡ None → AreDoable self.now jobs.now) }
    {
        self.are_within_limits();
        first_fault_is_told();
        let plan = self.plan_of(jobs)?;
        match task_of_verdict(feasibility(instance, &plan)) {
            Some(j) => Ok(Some(instance.task(j).name)),
            None => Ok(None),
        }
    }

    /// Adds a job to frozen ones, if its task has none and the teams can do it with these, by the instance of the lists.
    pub(crate) fn add_frozen(
        &self,
        instance: &Instance,
        frozen: &mut Vec<NamedJob>,
        job: &NamedJob,
    ) -> Result<(), AllocError>
        requires instance { instance.now ≡ day_instance (record self.now { frozen = [] }) }
        requires frozen { AreDoable self.now frozen.old.items }
        requires job { AreTeamsKnown self.now job.now }
        ensures jobs { OnOk result
            (frozen.new.items ≡ with_frozen self.now frozen.old.items job.now) }
        ensures doable { OnOk result (AreDoable self.now frozen.new.items) }
    {
        if has_job_of(frozen, &job.task()) {
            return Ok(());
        }
        frozen.push(job.copy(self.alloc)?)?;
        if self.faulty_job_in(instance, frozen.as_slice())?.is_some() {
            frozen.pop();
        }
        Ok(())
    }
}
