// The rows of a node's linear program: one for each class of teams that are alike, then one for each task, then one for each
// required pair.
ghost use Rattle.std.specs.Prelude.{◌<◌};
ghost use Rattle.crew_terms.specs.Limits.{tasks_in};

use crew_terms::{Pair, Visit};
use node_limits::Limits;
use price_ascent::find_firsts;
use std::alloc::{AllocError, Global};

/// A class of teams that are alike in the node: the first of them, and how many they are.
#[derive(Clone, Copy, PartialEq, Eq)]
pub(crate) struct Class {
    pub(crate) first: u32,
    pub(crate) teams: u32,
}

/// A team and a task at which the node requires it.
#[derive(Clone, Copy, PartialEq, Eq)]
pub(crate) struct RequiredPair {
    pub(crate) team: u32,
    pub(crate) task: u32,
}

/// What a row is of: the class of this first team, a task, or a required pair.
#[derive(Clone, Copy, PartialEq, Eq)]
pub(crate) enum Row {
    Class(u32),
    Task(u32),
    Pair(RequiredPair),
}

/// What has a row.
#[derive(Drop)]
pub(crate) struct Rows {
    pub(crate) classes: Vec<Class>,
    pub(crate) tasks: u32,
    pub(crate) pairs: Vec<RequiredPair>,
}

impl Rows {
    /// The rows of the node; AllocError where there is no memory.
    pub(crate) fn of(alloc: Global, limits: &Limits<'_>) -> Result<Rows, AllocError> {
        let mut rows = Rows {
            classes: Vec::new(alloc),
            tasks: limits.instance().tasks() as u32,
            pairs: Vec::new(alloc),
        };
        let firsts = find_firsts(alloc, limits)?;
        for first in &firsts {
            rows.count(*first)?;
        }
        for task in 0..limits.instance().tasks() as u32 {
            rows.add_pairs(limits, task)?;
        }
        Ok(rows)
    }

    // Counts a team of the class whose first team this is.
    fn count(&mut self, first: u32) -> Result<(), AllocError> {
        for class in &mut self.classes {
            if class.first == first {
                class.teams = class.teams.saturating_add(1);
                return Ok(());
            }
        }
        self.classes.push(Class { first, teams: 1 })?;
        Ok(())
    }

    // Adds the required pairs of the task.
    fn add_pairs(&mut self, limits: &Limits<'_>, task: u32) -> Result<(), AllocError>
        requires { task < tasks_in limits.now.limits }
    {
        for team in 0..limits.instance().teams() as u32 {
            if matches!(limits.pair(team, task), Pair::Required) {
                self.pairs.push(RequiredPair { team, task })?;
            }
        }
        Ok(())
    }

    /// How many rows there are.
    pub(crate) fn len(&self) -> usize {
        self.classes
            .len()
            .saturating_add(self.tasks as usize)
            .saturating_add(self.pairs.len())
    }

    /// What the row is of.
    pub(crate) fn name(&self, row: usize) -> Row {
        if let Some(class) = self.classes.get(row) {
            return Row::Class(class.first);
        }
        let task = row.saturating_sub(self.classes.len());
        if task < self.tasks as usize {
            return Row::Task(task as u32);
        }
        match self.pairs.get(task.saturating_sub(self.tasks as usize)) {
            Some(pair) => Row::Pair(*pair),
            None => Row::Task(0),
        }
    }

    // How many teams the class with this first team has.
    fn teams_of(&self, first: u32) -> i64 {
        for class in &self.classes {
            if class.first == first {
                return i64::from(class.teams);
            }
        }
        0
    }

    /// How many there are to share in a row: the teams of a class, those that a task needs, or the one of a pair.
    pub(crate) fn places(&self, limits: &Limits<'_>, row: Row) -> i64 {
        match row {
            Row::Class(team) => self.teams_of(team),
            Row::Task(task) => {
                if task as usize >= limits.instance().tasks() {
                    return 0;
                }
                i64::from(limits.instance().task(task).teams)
            }
            Row::Pair(_) => 1,
        }
    }

    /// The row of the task.
    pub(crate) fn of_task(&self, task: u32) -> usize {
        self.classes.len().saturating_add(task as usize)
    }

    /// The class with this first team.
    pub(crate) fn of_class(&self, first: u32) -> Option<usize> {
        self.classes.iter().position(|class| class.first == first)
    }

    /// The row of a required pair.
    pub(crate) fn of_pair(&self, at: usize) -> usize {
        self.of_task(self.tasks).saturating_add(at)
    }

    /// The row of the team at the task, where the node requires it there.
    pub(crate) fn find_pair(&self, team: u32, task: u32) -> Option<usize> {
        let pair = RequiredPair { team, task };
        let at = self.pairs.iter().position(|other| *other == pair)?;
        Some(self.of_pair(at))
    }

    /// The rows in which a route of the first team of a class counts, each as often as it does; AllocError where there is no
    /// memory.
    pub(crate) fn of_route(
        &self,
        alloc: Global,
        class: usize,
        team: u32,
        visits: &[Visit],
    ) -> Result<Vec<usize>, AllocError> {
        let mut rows = Vec::with_capacity(alloc, visits.len().saturating_add(1))?;
        rows.push(class)?;
        for visit in visits {
            rows.push(self.of_task(visit.task))?;
            if let Some(row) = self.find_pair(team, visit.task) {
                rows.push(row)?;
            }
        }
        Ok(rows)
    }
}
