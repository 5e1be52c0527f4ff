// Jobs by names.
ghost use Rattle.std.specs.Prelude.{◌≡◌, ◌<◌, ◌++◌, ℕ, Contains, filter, find, length, map, not, option_copied, IfOk, OnOk};
ghost use Rattle.std.specs.List.{list_any};
ghost use Rattle.crew_terms.specs.Instance.{team_of};
ghost use Rattle.crew_terms.specs.Verdict.{IsPlanOf};
ghost use Rattle.day_terms.specs.Work.{is_job_of, jobs_by_names, needs_team};
ghost use Rattle.flight_changes.specs.Named.{jobs_at, left_jobs};

use crew_instance::{Instance, Plan};
use crew_terms::{LAST_MINUTE, Name};
use day_terms::Entry;
use std::alloc::{AllocError, Global};
use std::marker::Model;

/// A job of a plan, by names: its task, the minute at which it is begun, and its teams.
#[derive(Drop)]
pub(crate) struct NamedJob {
    task: Name,
    start: u32,
    teams: Vec<Name>,
}

impl Model for NamedJob {
    ghost use Rattle.day_terms.specs.State.{NamedJob as Job};

    ghost Value = { Job };

    ghost use Rattle.flight_changes.specs.Kept.{job_in};

    ghost view = { job_in };
}

impl NamedJob {
    /// The task.
    pub(crate) fn task(&self) -> Name
        ensures { result ≡ self.now.task }
    {
        self.task
    }

    /// The minute at which it is begun.
    pub(crate) fn start(&self) -> u32
        ensures { result ≡ self.now.start }
    {
        self.start
    }

    /// The teams.
    pub(crate) fn teams(&self) -> &[Name]
        ensures { result.now ≡ self.now.teams }
    {
        self.teams.as_slice()
    }

    /// Whether it is a job of the task.
    pub(crate) fn is_of(&self, task: &Name) -> bool
        ensures { result ≡ is_job_of task.now self.now }
    {
        *task == self.task
    }

    /// Whether the team is one of its teams.
    pub(crate) fn needs(&self, team: &Name) -> bool
        ensures { result ≡ needs_team team.now self.now }
    {
        self.teams.iter().any(|name| team == name)
    }

    /// An equal job with memory of its own.
    pub(crate) fn copy(&self, alloc: Global) -> Result<NamedJob, AllocError>
        ensures { IfOk result (λ job. job ≡ self.now) }
    {
        Ok(NamedJob {
            task: self.task,
            start: self.start,
            teams: Vec::from_slice(alloc, self.teams.as_slice())?,
        })
    }
}

/// Equal jobs with memory of their own.
pub(crate) fn copies(alloc: Global, jobs: &[NamedJob]) -> Result<Vec<NamedJob>, AllocError>
    ensures { IfOk result (λ copies. copies.items ≡ jobs.now) }
{
    let mut copies = Vec::with_capacity(alloc, jobs.len())?;
    for job in jobs {
        copies.push(job.copy(alloc)?)?;
    }
    Ok(copies)
}

/// Whether one of these is a job of the task.
pub(crate) fn has_job_of(jobs: &[NamedJob], task: &Name) -> bool
    ensures { result ≡ list_any (is_job_of task.now) jobs.now }
{
    jobs.iter().any(|job| job.is_of(task))
}

/// The first of these that is a job of the task.
pub(crate) fn first_job_of<'a>(jobs: &'a [NamedJob], task: &Name) -> Option<&'a NamedJob>
    ensures { option_copied result ≡ find (is_job_of task.now) jobs.now }
{
    jobs.iter().find(|job| job.is_of(task))
}

/// Takes the jobs of the task out of these.
pub(crate) fn end_jobs_of(jobs: &mut Vec<NamedJob>, task: &Name)
    ensures { jobs.new.items ≡ filter (λ job. not (is_job_of task.now job)) jobs.old.items }
{
    jobs.retain(|job| !job.is_of(task));
}

/// Takes the jobs that need the team out of these.
fn end_jobs_with(jobs: &mut Vec<NamedJob>, team: &Name)
    ensures { jobs.new.items ≡ filter (λ job. not (needs_team team.now job)) jobs.old.items }
{
    jobs.retain(|job| !job.needs(team));
}

/// Takes the jobs of the task or of the team that the entry ends out of these.
pub(crate) fn end_jobs(jobs: &mut Vec<NamedJob>, entry: &Entry)
    ensures { jobs.new.items ≡ left_jobs entry.now jobs.old.items }
{
    match entry {
        Entry::Cancel { task } => end_jobs_of(jobs, task),
        Entry::Sick { team } => end_jobs_with(jobs, team),
        _ => {}
    }
}

/// The jobs of a plan by names, in the order of starts and then of tasks: what a desk keeps of the last plan.
#[derive(Drop)]
pub struct PlannedJobs {
    jobs: Vec<NamedJob>,
}

impl Model for PlannedJobs {
    ghost use Rattle.std.specs.Prelude.{List};
    ghost use Rattle.day_terms.specs.State.{NamedJob as Job};

    ghost Value = { List Job };

    ghost use Rattle.flight_changes.specs.Kept.{jobs_in};

    ghost view = { jobs_in };
}

impl PlannedJobs {
    /// The jobs of a plan of the instance.
    pub fn of(alloc: Global, instance: &Instance, plan: &Plan) -> Result<PlannedJobs, AllocError>
        requires { IsPlanOf instance.now plan.now }
        ensures { IfOk result (λ jobs. jobs ≡ jobs_by_names instance.now plan.now) }
    {
        let mut jobs = Vec::new(alloc);
        for minute in 0..LAST_MINUTE + 1 {
            add_jobs_at(alloc, instance, plan, minute, &mut jobs)?;
        }
        Ok(PlannedJobs { jobs })
    }

    /// The jobs themselves.
    pub(crate) fn into_jobs(self) -> Vec<NamedJob>
        ensures { result.items ≡ self }
    {
        self.jobs
    }
}

/// The names of teams.
fn names_of(alloc: Global, instance: &Instance, teams: &[u32]) -> Result<Vec<Name>, AllocError>
    requires { (k : ℕ) → Contains teams.now k → k < length instance.now.teams }
    ensures { IfOk result
        (λ names. names.items ≡ map (λ k. (team_of instance.now k).name) teams.now) }
{
    let mut names = Vec::with_capacity(alloc, teams.len())?;
    for k in teams {
        names.push(instance.team(*k).name)?;
    }
    Ok(names)
}

/// Adds the jobs that are begun at this minute, by task.
fn add_jobs_at(
    alloc: Global,
    instance: &Instance,
    plan: &Plan,
    minute: u32,
    jobs: &mut Vec<NamedJob>,
) -> Result<(), AllocError>
    requires { IsPlanOf instance.now plan.now }
    ensures { OnOk result
        (jobs.new.items ≡ jobs.old.items ++ jobs_at instance.now plan.now minute) }
{
    for j in 0..plan.len() as u32 {
        if plan.start(j) == Some(minute) {
            jobs.push(NamedJob {
                task: instance.task(j).name,
                start: minute,
                teams: names_of(alloc, instance, plan.teams(j))?,
            })?;
        }
    }
    Ok(())
}
