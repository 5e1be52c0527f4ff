// Jobs that stay as they are in an old plan.

use crate::orders::Orders;
use crate::search::Search;
use crate::weights::ONE;
use crew_instance::Plan;
use plan_check::is_as_good;
use std::alloc::AllocError;

// What a job is worth that stays with its teams.
const JOB: u64 = ONE as u64 / 50;

// What a place costs more with a team that doesn't do the task in the old plan.
const OTHER_TEAM: u32 = 20;

/// The jobs of an old plan, or none.
#[derive(Clone, Copy)]
pub(crate) struct Old<'p> {
    plan: Option<&'p Plan>,
}

impl<'p> Old<'p> {
    /// The jobs of the plan, or none.
    pub(crate) fn of(plan: Option<&'p Plan>) -> Old<'p> {
        Old { plan }
    }

    /// Whether there is an old plan.
    pub(crate) fn is_some(self) -> bool {
        self.plan.is_some()
    }

    // The teams that do task `j` in it.
    fn teams(self, j: u32) -> &'p [u32] {
        let Some(plan) = self.plan else {
            return &[];
        };
        if j as usize >= plan.len() {
            return &[];
        }
        plan.teams(j)
    }

    // When task `j` begins in it.
    fn start(self, j: u32) -> Option<u32> {
        let plan = self.plan?;
        if j as usize >= plan.len() {
            return None;
        }
        plan.start(j)
    }

    /// What a place of task `j` costs more with the team.
    pub(crate) fn cost(self, j: u32, team: u32) -> u32 {
        let teams = self.teams(j);
        if teams.is_empty() || teams.contains(&team) {
            0
        } else {
            OTHER_TEAM
        }
    }

    /// Whether task `j` has the same teams in the orders.
    pub(crate) fn is_kept(self, orders: &Orders, j: u32) -> bool {
        let teams = self.teams(j);
        let crew = orders.crew(j);
        if teams.is_empty() || teams.len() != crew.len() {
            return false;
        }
        crew.iter().all(|k| teams.contains(k))
    }

    /// How many tasks have the same teams in the orders.
    pub(crate) fn count(self, orders: &Orders, tasks: u32) -> u64 {
        let mut count = 0u64;
        for j in 0..tasks {
            if self.is_kept(orders, j) {
                count = count.saturating_add(1);
            }
        }
        count
    }
}

/// When a task begins in the old plan.
#[derive(Clone, Copy)]
struct OldStart {
    minute: u32,
    task: u32,
}

impl Search<'_> {
    // How many of the tasks that were due have the teams of the old plan.
    fn kept_of_due(&self) -> u64 {
        let mut count = 0u64;
        for due in &self.due {
            if self.old.is_kept(&self.orders, due.task) {
                count = count.saturating_add(1);
            }
        }
        count
    }

    /// Whether the tasks left over, less the jobs that stay, weigh no more than before the trial, where there is an old plan;
    /// these jobs are counted then.
    pub(crate) fn keeps_enough(&mut self, before: u64, left: u64) -> bool {
        if !self.old.is_some() {
            return true;
        }
        let kept = self.kept_of_due();
        let after = left.saturating_add(self.gone.saturating_mul(JOB));
        if after > before.saturating_add(kept.saturating_mul(JOB)) {
            return false;
        }
        self.kept = self.kept.saturating_sub(self.gone).saturating_add(kept);
        true
    }

    // The tasks with the teams of the old plan, by when they begin in it.
    fn old_starts(&self) -> Result<Vec<OldStart>, AllocError> {
        let mut starts = Vec::new(self.alloc);
        for task in 0..self.facts.tasks() {
            if self.old.is_kept(&self.orders, task) {
                if let Some(minute) = self.old.start(task) {
                    starts.push(OldStart { minute, task })?;
                }
            }
        }
        starts.sort_unstable_by_key(|one: &OldStart| one.minute);
        Ok(starts)
    }

    // Has tasks with the teams of the old plan begin when they do in it, where they can.
    fn restore_starts(&mut self) -> Result<(), AllocError> {
        let starts = self.old_starts()?;
        for one in &starts {
            self.orders.delay(&self.facts, one.task, one.minute)?;
        }
        Ok(())
    }

    /// The best plan that was seen. Its tasks with the teams of the old plan begin when they do in that, where they can.
    pub(crate) fn finish(mut self) -> Result<Plan, AllocError> {
        if !self.old.is_some() {
            return Ok(self.best);
        }
        self.go_back()?;
        self.restore_starts()?;
        let plan = self.orders.plan(self.instance)?;
        if is_as_good(self.instance, &plan, &self.best) {
            Ok(plan)
        } else {
            Ok(self.best)
        }
    }
}
