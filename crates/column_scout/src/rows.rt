// The rows of a node's master: one for each team, then one for each task, then one for each required pair.
ghost use Rattle.std.specs.Prelude.{◌<◌};
ghost use Rattle.crew_terms.specs.Limits.{tasks_in};

use crew_terms::{Pair, Visit};
use node_limits::Limits;
use std::alloc::{AllocError, Global};

/// A team and a task at which the node requires it.
#[derive(Clone, Copy, PartialEq, Eq)]
pub(crate) struct RequiredPair {
    pub(crate) team: u32,
    pub(crate) task: u32,
}

/// How many rows there are of each kind.
#[derive(Drop)]
pub(crate) struct Rows {
    pub(crate) teams: u32,
    pub(crate) tasks: u32,
    pub(crate) pairs: Vec<RequiredPair>,
}

impl Rows {
    /// The rows of the node; AllocError where there is no memory.
    pub(crate) fn of(alloc: Global, limits: &Limits<'_>) -> Result<Rows, AllocError> {
        let mut rows = Rows {
            teams: limits.instance().teams() as u32,
            tasks: limits.instance().tasks() as u32,
            pairs: Vec::new(alloc),
        };
        for task in 0..limits.instance().tasks() as u32 {
            rows.add_pairs(limits, task)?;
        }
        Ok(rows)
    }

    // Adds the required pairs of the task.
    fn add_pairs(&mut self, limits: &Limits<'_>, task: u32) -> Result<(), AllocError>
        requires { task < tasks_in limits.now.limits }
    {
        for team in 0..limits.instance().teams() as u32 {
            if matches!(limits.pair(team, task), Pair::Required) {
                self.pairs.push(RequiredPair { team, task })?;
            }
        }
        Ok(())
    }

    /// How many rows there are.
    pub(crate) fn len(&self) -> usize {
        (self.teams as usize)
            .saturating_add(self.tasks as usize)
            .saturating_add(self.pairs.len())
    }

    /// The row of the task.
    pub(crate) fn of_task(&self, task: u32) -> usize {
        (self.teams as usize).saturating_add(task as usize)
    }

    /// The row of a required pair.
    pub(crate) fn of_pair(&self, at: usize) -> usize {
        self.of_task(self.tasks).saturating_add(at)
    }

    // The row of the team at the task, where the node requires it there.
    fn find_pair(&self, team: u32, task: u32) -> Option<usize> {
        let pair = RequiredPair { team, task };
        let at = self.pairs.iter().position(|other| *other == pair)?;
        Some(self.of_pair(at))
    }

    /// The dual of the row of the team at the task, 0 where the node doesn't require it there.
    pub(crate) fn pair_dual(&self, duals: &[i64], team: u32, task: u32) -> i64 {
        match self.find_pair(team, task) {
            Some(row) => duals.get(row).copied().unwrap_or(0),
            None => 0,
        }
    }

    /// The rows in which a route counts, each as often as it does; AllocError where there is no memory.
    pub(crate) fn of_route(
        &self,
        alloc: Global,
        team: u32,
        visits: &[Visit],
    ) -> Result<Vec<usize>, AllocError> {
        let mut rows = Vec::with_capacity(alloc, 1)?;
        rows.push(team as usize)?;
        for visit in visits {
            rows.push(self.of_task(visit.task))?;
            if let Some(row) = self.find_pair(team, visit.task) {
                rows.push(row)?;
            }
        }
        Ok(rows)
    }
}
