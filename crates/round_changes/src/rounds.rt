// A round by names.
ghost use Rattle.std.specs.Prelude.{◌≡◌, ◌≤◌, ◌<◌, ◌++◌, [], ◌∷◌, length, map, All, IfOk, OnOk, Some};
ghost use Rattle.std.specs.List.{flat_map, range_with_len};
ghost use Rattle.std.specs.Option.{option_map};
ghost use Rattle.crew_terms.specs.Legal.{IsLegal};
ghost use Rattle.crew_terms.specs.Plan.{job_of};
ghost use Rattle.crew_terms.specs.declared.TheConstants.{LAST_MINUTE, MOST_TEAMS_PER_TASK};
ghost use Rattle.round_changes.specs.Named.{jobs_at, round_of, task_name, team_name};
ghost use Rattle.round_changes.specs.Changes.{has_name};

use crew_instance::{Instance, Plan};
use crew_terms::Name;
use std::alloc::{AllocError, Global};
use std::marker::Model;

/// A job by names: its task, the minute of the day at which it begins, and its teams.
#[derive(Drop)]
pub struct NamedJob {
    task: Name,
    start: u32,
    teams: Vec<Name>,
}

impl Model for NamedJob {
    ghost use Rattle.round_changes.specs.Named.{JobByNames};

    ghost Value = { JobByNames };

    ghost use Rattle.round_changes.specs.Kept.{named};

    ghost view = { named };

    ghost use Rattle.round_changes.specs.Named.{IsKept};

    ghost invariant = { λ a. IsKept (named a) };
}

impl NamedJob {
    /// The name of its task.
    pub fn task(&self) -> &Name
        ensures { result.now ≡ self.now.task }
    {
        &self.task
    }

    /// The minute at which it begins.
    pub fn start(&self) -> u32
        ensures start { result ≡ self.now.start }
        ensures day { result ≤ LAST_MINUTE }
    {
        self.start
    }

    /// The names of its teams.
    pub fn teams(&self) -> &[Name]
        ensures teams { result.now ≡ self.now.teams }
        ensures few { length result.now ≤ MOST_TEAMS_PER_TASK }
    {
        &self.teams
    }
}

/// What is kept of a round when the next one is read: the names of its tasks, and its jobs by names.
#[derive(Drop)]
pub struct Round {
    tasks: Vec<Name>,
    jobs: Vec<NamedJob>,
}

impl Model for Round {
    ghost use Rattle.round_changes.specs.Named.{RoundByNames};

    ghost Value = { RoundByNames };

    ghost use Rattle.round_changes.specs.Kept.{noted};

    ghost view = { noted };
}

impl Round {
    /// The names of its tasks.
    pub fn tasks(&self) -> &[Name]
        ensures { result.now ≡ self.now.tasks }
    {
        &self.tasks
    }

    /// Its jobs, by the numbers of their tasks.
    pub fn jobs(&self) -> &[NamedJob]
        ensures { result.now ≡ self.now.jobs }
    {
        &self.jobs
    }
}

/// Whether a name is one of these.
pub(crate) fn has(names: &[Name], name: &Name) -> bool
    ensures { result ≡ has_name names.now name.now }
{
    names.iter().any(|n| n == name)
}

/// Whether a task of the round has this name.
pub fn is_task(round: &Round, name: &Name) -> bool
    ensures { result ≡ has_name round.now.tasks name.now }
{
    has(&round.tasks, name)
}

/// The names of these teams.
fn note_teams(alloc: Global, instance: &Instance, teams: &[u32]) -> Result<Vec<Name>, AllocError>
    requires { All (λ k. k < length instance.now.teams) teams.now }
    ensures { IfOk result (λ names. names.items ≡ map (team_name instance.now) teams.now) }
{
    let mut names = Vec::new(alloc);
    for k in teams {
        names.push(instance.team(*k).name)?;
    }
    Ok(names)
}

/// The job of task `j`, which begins at minute `start`, by names.
fn note_job(
    alloc: Global,
    instance: &Instance,
    plan: &Plan,
    j: u32,
    start: u32,
) -> Result<NamedJob, AllocError>
    requires legal { IsLegal instance.now plan.now }
    requires begun { option_map (λ job. job.start) (job_of plan.now j) ≡ Some start }
    ensures { IfOk result (λ named. named ∷ [] ≡ jobs_at instance.now plan.now j) }
{
    let teams = note_teams(alloc, instance, plan.teams(j))?;
    Ok(NamedJob {
        task: instance.task(j).name,
        start,
        teams,
    })
}

/// Adds the job of task `j` by names, if it has one.
fn push_job(
    jobs: &mut Vec<NamedJob>,
    alloc: Global,
    instance: &Instance,
    plan: &Plan,
    j: u32,
) -> Result<(), AllocError>
    requires legal { IsLegal instance.now plan.now }
    requires task { j < length plan.now }
    ensures { OnOk result (jobs.new.items ≡ jobs.old.items ++ jobs_at instance.now plan.now j) }
{
    let Some(start) = plan.start(j) else {
        return Ok(());
    };
    let job = note_job(alloc, instance, plan, j, start)?;
    jobs.push(job)?;
    Ok(())
}

/// The names of the tasks.
fn note_tasks(alloc: Global, instance: &Instance) -> Result<Vec<Name>, AllocError>
    ensures { IfOk result (λ names. names.items
        ≡ map (task_name instance.now) (range_with_len 0 (length instance.now.tasks))) }
{
    let mut names = Vec::new(alloc);
    for j in 0..instance.tasks() as u32 {
        names.push(instance.task(j).name)?;
    }
    Ok(names)
}

/// The jobs of a plan.
fn note_jobs(alloc: Global, instance: &Instance, plan: &Plan) -> Result<Vec<NamedJob>, AllocError>
    requires { IsLegal instance.now plan.now }
    ensures { IfOk result (λ jobs. jobs.items
        ≡ flat_map (jobs_at instance.now plan.now) (range_with_len 0 (length instance.now.tasks))) }
{
    let mut jobs = Vec::new(alloc);
    for j in 0..instance.tasks() as u32 {
        push_job(&mut jobs, alloc, instance, plan, j)?;
    }
    Ok(jobs)
}

/// What is kept of an instance and its legal plan.
pub fn note_round(alloc: Global, instance: &Instance, plan: &Plan) -> Result<Round, AllocError>
    requires { IsLegal instance.now plan.now }
    ensures { IfOk result (λ round. round ≡ round_of instance.now plan.now) }
{
    let tasks = note_tasks(alloc, instance)?;
    let jobs = note_jobs(alloc, instance, plan)?;
    Ok(Round { tasks, jobs })
}
