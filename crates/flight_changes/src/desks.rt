// The desk: a day's state, which each entry changes.
ghost use Rattle.std.specs.Prelude.{◌≡◌, ◌⊎◌, ℕ, List, [], None, Some, IfErr, IfOk, OnErr, OnOk, option_map};
ghost use Rattle.crew_terms.specs.Legal.{IsLegal};
ghost use Rattle.crew_terms.specs.Plan.{Plan as JobPlan};
ghost use Rattle.day_terms.specs.Entries.{after_entry};
ghost use Rattle.day_terms.specs.Instances.{day_instance, plan_of_jobs};
ghost use Rattle.day_terms.specs.Ranges.{IsInRange};
ghost use Rattle.day_terms.specs.Refusal.{Refusal, gone_work, refusal_by_lists, refusal_of, work_against};
ghost use Rattle.day_terms.specs.Rounds.{first_missing};
ghost use Rattle.day_terms.specs.State.{start};
ghost use Rattle.day_terms.specs.Work.{jobs_by_names};
ghost use Rattle.flight_changes.specs.Faults.{fault_of};
ghost use Rattle.flight_changes.specs.Limits.{IsListEntry};

use crate::faults::ChangeFault;
use crate::job_laws::first_fault_is_told;
use crate::jobs::{NamedJob, PlannedJobs, copies, end_jobs, end_jobs_of, first_job_of};
use crate::lists::Lists;
use crew_instance::{Instance, Plan};
use crew_laws::empty_plan_is_feasible;
use crew_terms::Name;
use day_terms::Entry;
use std::alloc::{AllocError, Global};
use std::marker::Model;

/// A day's state: its places, teams and tasks in the order in which they came, the travel times, what is left of the last
/// plan, and the frozen jobs. Each entry that is not refused changes it.
#[derive(Drop)]
pub struct Desk {
    pub(crate) alloc: Global,
    pub(crate) lists: Lists,
    // By start, and then by task.
    pub(crate) last_plan: Vec<NamedJob>,
    pub(crate) frozen: Vec<NamedJob>,
}

impl Model for Desk {
    ghost use Rattle.day_terms.specs.State.{DayState};

    ghost Value = { DayState };

    ghost use Rattle.flight_changes.specs.Kept.{state_of, IsKept};

    ghost view = { state_of };

    ghost invariant = { IsKept };
}

impl Desk {
    /// A desk before the day's first entry.
    pub fn new(alloc: Global) -> Desk
        ensures { result ≡ start }
    {
        empty_plan_is_feasible();
        Desk {
            alloc,
            lists: Lists::new(alloc),
            last_plan: Vec::new(alloc),
            frozen: Vec::new(alloc),
        }
    }

    /// Changes the state as the entry says. An entry is refused with the first condition of its kind that holds, and
    /// then where frozen work forbids it; the state is then as before. Memory may run out in place of a change or of a
    /// look at frozen work, but in no other refusal; the state is then as before, too. The entry of a plan changes
    /// nothing, and is refused where the state lacks a travel time, as is that of a time before which jobs are frozen. A desk
    /// knows no plan of a round to come.
    pub fn apply(&mut self, entry: &Entry) -> Result<(), ChangeFault>
        requires { IsInRange entry.now }
        ensures taken { OnOk result (refusal_of self.old entry.now ≡ None) }
        ensures ok { OnOk result (self.new ≡ after_entry self.old entry.now) }
        ensures err { OnErr result (self.new ≡ self.old) }
        ensures unknown { self.old.plans ≡ [] }
        ensures told { IfErr result (λ fault. (fault ≡ ChangeFault.OutOfMemory)
            ⊎ (option_map fault_of (refusal_of self.old entry.now) ≡ Some fault)) }
        ensures by_lists { (told : Refusal) → refusal_by_lists self.old entry.now ≡ Some told →
            result ≡ Err (fault_of told) }
    {
        self.lists.check(entry)?;
        match *entry {
            Entry::Plan { .. } => Ok(()),
            Entry::Now { time } => Ok(self.freeze(time)?),
            Entry::Thaw { task } => self.thaw(&task),
            _ if self.frozen.is_empty() => Ok(self.change(entry)?),
            _ => self.change_beside_work(entry),
        }
    }

    /// Has these jobs, those of a legal plan of the state's instance, in the place of the last plan. It takes no memory.
    pub fn planned(&mut self, jobs: PlannedJobs)
        requires legal { (p : JobPlan) × IsLegal (day_instance self.old) p
            × (jobs ≡ jobs_by_names (day_instance self.old) p) }
        ensures { self.new ≡ record self.old { last_plan = jobs } }
    {
        self.last_plan = jobs.into_jobs();
    }

    /// What is left of the last plan, as a plan of the state's tasks: for each the job of its name, if there is one. AllocError
    /// where there is no memory.
    pub fn last_plan(&self) -> Result<Plan, AllocError>
        ensures { IfOk result (λ plan. plan ≡ plan_of_jobs self.now self.now.last_plan) }
    {
        self.lists.plan_of(&self.last_plan)
    }

    /// Changes the lists by an entry, and takes out of the last plan what it ends.
    fn change(&mut self, entry: &Entry) -> Result<(), AllocError>
        requires range { IsInRange entry.now }
        requires lists { IsListEntry entry.now }
        requires accepted { refusal_by_lists self.old entry.now ≡ None }
        requires free { self.old.frozen ≡ [] }
        ensures taken { OnOk result (work_against self.old entry.now ≡ None) }
        ensures ok { OnOk result (self.new ≡ after_entry self.old entry.now) }
        ensures err { OnErr result (self.new ≡ self.old) }
    {
        empty_plan_is_feasible();
        first_fault_is_told();
        self.lists.change(entry)?;
        self.lists.are_within_limits();
        end_jobs(&mut self.last_plan, entry);
        Ok(())
    }

    /// Changes the lists by an entry, unless frozen work forbids it.
    fn change_beside_work(&mut self, entry: &Entry) -> Result<(), ChangeFault>
        requires range { IsInRange entry.now }
        requires lists { IsListEntry entry.now }
        requires accepted { refusal_by_lists self.old entry.now ≡ None }
        ensures taken { OnOk result (work_against self.old entry.now ≡ None) }
        ensures ok { OnOk result (self.new ≡ after_entry self.old entry.now) }
        ensures err { OnErr result (self.new ≡ self.old) }
        ensures told { IfErr result (λ fault. (fault ≡ ChangeFault.OutOfMemory)
            ⊎ (option_map ChangeFault.FrozenWork (work_against self.old entry.now) ≡ Some fault)) }
    {
        if let Some(task) = self.gone_work(entry) {
            return Err(ChangeFault::FrozenWork { task });
        }
        let lists = self.lists.after(entry)?;
        if let Some(task) = lists.faulty_job(&self.frozen)? {
            return Err(ChangeFault::FrozenWork { task });
        }
        self.lists = lists;
        end_jobs(&mut self.last_plan, entry);
        Ok(())
    }

    /// The frozen task that would be gone, or, by number, the first of which the team would be.
    fn gone_work(&self, entry: &Entry) -> Option<Name>
        ensures { result ≡ gone_work self.now entry.now }
    {
        match entry {
            Entry::Cancel { task } => Some(first_job_of(&self.frozen, task)?.task()),
            Entry::Sick { team } => Some(self.lists.first_job_with(&self.frozen, team)?.task()),
            _ => None,
        }
    }

    /// Freezes the jobs of the last plan that begin before the time, in their order, each where its task has no frozen job
    /// and the teams can do it with those that are frozen already.
    fn freeze(&mut self, time: u32) -> Result<(), AllocError>
        ensures ok { OnOk result (self.new ≡ after_entry self.old (Entry.Now time)) }
        ensures err { OnErr result (self.new ≡ self.old) }
    {
        let instance = self.lists.instance()?;
        let mut frozen = copies(self.alloc, &self.frozen)?;
        for job in &self.last_plan {
            if job.start() < time {
                self.lists.add_frozen(&instance, &mut frozen, job)?;
            }
        }
        self.frozen = frozen;
        Ok(())
    }

    /// Has the task's frozen job frozen no more, unless the others forbid it.
    fn thaw(&mut self, task: &Name) -> Result<(), ChangeFault>
        requires accepted { refusal_by_lists self.old (Entry.Thaw task.now) ≡ None }
        ensures taken { OnOk result (work_against self.old (Entry.Thaw task.now) ≡ None) }
        ensures ok { OnOk result (self.new ≡ after_entry self.old (Entry.Thaw task.now)) }
        ensures err { OnErr result (self.new ≡ self.old) }
        ensures told { IfErr result (λ fault. (fault ≡ ChangeFault.OutOfMemory)
            ⊎ (option_map ChangeFault.FrozenWork
            (work_against self.old (Entry.Thaw task.now)) ≡ Some fault)) }
    {
        let mut frozen = copies(self.alloc, &self.frozen)?;
        end_jobs_of(&mut frozen, task);
        if let Some(task) = self.lists.faulty_job(&frozen)? {
            return Err(ChangeFault::FrozenWork { task });
        }
        self.frozen = frozen;
        Ok(())
    }

    /// The instance of the state as it stands, with its frozen jobs. There is none where two different places have no travel
    /// time and no default stands; the first such pair, by `from` and then by `to`, is told. Memory may run out.
    pub fn instance(&self) -> Result<Instance, ChangeFault>
        ensures ok { IfOk result (λ instance. instance ≡ day_instance self.now) }
        ensures missing { (from to : List ℕ) → first_missing self.now ≡ Some (from, to) →
            result ≡ Err (ChangeFault.MissingTravel from to) }
        ensures whole { first_missing self.now ≡ None →
            IfErr result (λ fault. fault ≡ ChangeFault.OutOfMemory) }
    {
        self.lists.check_times()?;
        let instance = self.lists.instance()?;
        if self.frozen.is_empty() {
            return Ok(instance);
        }
        let frozen = self.lists.plan_of(&self.frozen)?;
        Ok(instance.with_frozen(frozen))
    }
}
