// Plans: when each task is begun, and by which teams.
ghost use Rattle.std.specs.Prelude.{◌≡◌, ◌≤◌, ◌<◌, None, Some, IfOk, OnErr, OnOk, [], length, slice_set};
ghost use Rattle.std.specs.Option.{option_map};
ghost use Rattle.crew_terms.specs.Plan.{empty_plan, job_of, unassigned_count};
ghost use Rattle.crew_terms.specs.declared.TheConstants.{MOST_TASKS};
ghost use Rattle.crew_instance.specs.Draft.{filled};
ghost use Rattle.crew_instance.specs.Teams.{job_by, job_teams};

use crew_terms::MOST_TEAMS_PER_TASK;
use smallvec::SmallVec;
use std::alloc::{AllocError, Global};
use std::marker::Model;

/// When a task is begun, and by which teams. A list of no more teams than a task may need lies in the plan itself.
#[derive(Drop)]
struct Slot {
    start: u32,
    teams: SmallVec<u32, MOST_TEAMS_PER_TASK>,
}

/// A plan: for each of at most 400 tasks nothing, or the minute of the day at which it is begun and the
/// numbers of the teams that do it.
#[derive(Drop)]
pub struct Plan {
    alloc: Global,
    slots: Vec<Option<Slot>>,
}

impl Model for Plan {
    ghost use Rattle.std.specs.Prelude.{◌≤◌, length};
    ghost use Rattle.crew_terms.specs.Plan.{Plan as Jobs};
    ghost use Rattle.crew_terms.specs.declared.TheConstants.{MOST_TASKS};

    ghost Value = { Jobs };

    ghost use Rattle.crew_instance.specs.Kept.{planned};

    ghost view = { planned };

    ghost invariant = { λ a. length a.slots.items ≤ MOST_TASKS };
}

impl Plan {
    /// A plan for no tasks. It takes no memory.
    pub fn new(alloc: Global) -> Plan
        ensures { result ≡ [] }
    {
        Plan {
            alloc,
            slots: Vec::new(alloc),
        }
    }

    /// A plan for so many tasks, none of which is assigned.
    pub fn empty(alloc: Global, tasks: usize) -> Result<Plan, AllocError>
        requires { tasks ≤ MOST_TASKS }
        ensures { IfOk result (λ p. p ≡ empty_plan tasks) }
    {
        let mut slots = Vec::with_capacity(alloc, tasks)?;
        for _ in 0..tasks {
            slots.push(None)?;
        }
        Ok(Plan { alloc, slots })
    }

    /// Has these teams begin task `i` at minute `start`, in place of what the plan had of the task. An
    /// `Err` changes nothing.
    pub fn assign(&mut self, i: u32, start: u32, teams: &[u32]) -> Result<(), AllocError>
        requires { i < length self.old }
        ensures ok { OnOk result
            (self.new ≡ slice_set self.old i (Some (job_by start teams.now))) }
        ensures err { OnErr result (self.new ≡ self.old) }
    {
        let teams = SmallVec::from_slice(self.alloc, teams)?;
        self.assign_list(i, start, teams);
        Ok(())
    }

    /// Has the teams of this list begin task `i` at minute `start`, in place of what the plan had of the task. The plan
    /// takes the list over; no memory is taken.
    pub fn assign_list(&mut self, i: u32, start: u32, teams: SmallVec<u32, MOST_TEAMS_PER_TASK>)
        requires { i < length self.old }
        ensures { self.new ≡ slice_set self.old i (Some (job_by start teams.items)) }
    {
        self.slots[i as usize] = Some(Slot { start, teams });
    }

    /// Leaves task `i` unassigned.
    pub fn clear(&mut self, i: u32)
        requires { i < length self.old }
        ensures { self.new ≡ slice_set self.old i None }
    {
        self.slots[i as usize] = None;
    }

    /// Makes the plan one for at least so many tasks; those that it did not have are unassigned. An `Err` changes
    /// nothing.
    pub(crate) fn lengthen(&mut self, tasks: usize) -> Result<(), AllocError>
        requires { tasks ≤ MOST_TASKS }
        ensures ok { OnOk result (self.new ≡ filled tasks self.old) }
        ensures err { OnErr result (self.new ≡ self.old) }
    {
        if self.slots.len() < tasks {
            self.slots.resize_with(tasks, || None)?;
        }
        Ok(())
    }

    /// An equal plan with memory of its own.
    pub fn copy(&self) -> Result<Plan, AllocError>
        ensures { IfOk result (λ p. p ≡ self.now) }
    {
        let mut copy = Plan::empty(self.alloc, self.len())?;
        for i in 0..self.len() as u32 {
            if let Some(start) = self.start(i) {
                copy.assign(i, start, self.teams(i))?;
            }
        }
        Ok(copy)
    }

    /// How many tasks the plan is for.
    pub fn len(&self) -> usize
        ensures count { result ≡ length self.now }
        ensures few { result ≤ MOST_TASKS }
    {
        self.slots.len()
    }

    /// The minute at which task `i` is begun; None exactly where it is unassigned.
    pub fn start(&self, i: u32) -> Option<u32>
        requires { i < length self.now }
        ensures { result ≡ option_map (λ job. job.start) (job_of self.now i) }
    {
        let slot = &self.slots[i as usize];
        slot.as_ref().map(|s| s.start)
    }

    /// The teams that do task `i`, none where it is unassigned.
    pub fn teams(&self, i: u32) -> &[u32]
        requires { i < length self.now }
        ensures { result.now ≡ job_teams (job_of self.now i) }
    {
        match &self.slots[i as usize] {
            Some(slot) => slot.teams.as_slice(),
            None => &[],
        }
    }
}

/// How many tasks of the plan are unassigned.
pub fn unassigned(plan: &Plan) -> u32
    ensures { result ≡ unassigned_count plan.now }
{
    let mut n = 0;
    for slot in &plan.slots {
        if slot.is_none() {
            n += 1;
        }
    }
    n
}
