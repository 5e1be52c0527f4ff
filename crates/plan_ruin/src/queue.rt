// The order in which tasks are put in again.

use crate::holes::Hole;
use crate::search::Search;
use std::alloc::AllocError;

// Tasks that are left over are tried again where their window is so many minutes from the hole at most.
const NEAR: u32 = 60;

// Tasks that are alike otherwise go by draws below this.
const DRAWS: usize = 1 << 20;

/// By what tasks are put in order: by draws, joint ones first, those of the fewest teams, those due soonest, the heaviest.
#[derive(Clone, Copy)]
enum Key {
    Drawn,
    Joint,
    Chances,
    Latest,
    Weight,
}

/// The place of a task in the order.
#[derive(Clone, Copy, PartialEq, Eq, PartialOrd, Ord)]
pub(crate) struct Rank {
    is_behind: bool,
    value: u32,
    draw: u32,
}

/// A task that is to be put in, and whether it was left over before.
#[derive(Clone, Copy)]
pub(crate) struct Due {
    rank: Rank,
    pub(crate) task: u32,
    pub(crate) was_open: bool,
}

/// How tasks are put in order, and whether joint ones go to the front.
#[derive(Clone, Copy)]
struct Sorting {
    key: Key,
    joint_first: bool,
}

impl Search<'_> {
    // A drawn way to put tasks in order.
    fn draw_sorting(&mut self) -> Sorting {
        let key = match self.draws.below(5) {
            0 => Key::Drawn,
            1 => Key::Joint,
            2 => Key::Chances,
            3 => Key::Latest,
            _ => Key::Weight,
        };
        let joint_first = match key {
            Key::Drawn => false,
            Key::Joint => true,
            Key::Chances | Key::Latest | Key::Weight => self.draws.below(2) == 0,
        };
        Sorting { key, joint_first }
    }

    // The place of task `j` in the order.
    fn rank(&mut self, sorting: Sorting, j: u32) -> Rank {
        let value = match sorting.key {
            Key::Drawn | Key::Joint => 0,
            Key::Chances => self.facts.chances(j).len().min(DRAWS) as u32,
            Key::Latest => self.facts.window(j).last,
            Key::Weight => u32::MAX - self.weights.of(j),
        };
        Rank {
            is_behind: sorting.joint_first && self.facts.wanted(j) == 1,
            value,
            draw: self.draws.below(DRAWS) as u32,
        }
    }

    // Lists a task that is to be put in.
    fn add_due(&mut self, sorting: Sorting, task: u32, was_open: bool) -> Result<(), AllocError> {
        let rank = self.rank(sorting, task);
        self.due.push(Due {
            rank,
            task,
            was_open,
        })?;
        Ok(())
    }

    // Lists the tasks that went out.
    fn add_out(&mut self, sorting: Sorting) -> Result<(), AllocError> {
        for at in 0..self.out.len() {
            if let Some(task) = self.out.get(at).copied() {
                self.add_due(sorting, task, false)?;
            }
        }
        Ok(())
    }

    // Whether the window of task `j` is near to the hole.
    fn is_near(&self, j: u32, hole: Hole) -> bool {
        let window = self.facts.window(j);
        window.first <= hole.until.saturating_add(NEAR)
            && window.last.saturating_add(NEAR) >= hole.from
    }

    // Lists the tasks near to the hole that were left over. Answers what they weigh.
    fn add_open(&mut self, sorting: Sorting, hole: Hole) -> Result<u64, AllocError> {
        let mut weight = 0u64;
        for at in 0..self.pool.len() {
            let Some(task) = self.pool.get(at).copied() else {
                return Ok(weight);
            };
            if self.is_near(task, hole) {
                self.add_due(sorting, task, true)?;
                weight = weight.saturating_add(u64::from(self.weights.of(task)));
            }
        }
        Ok(weight)
    }

    /// Lists the tasks that are to be put in, in a drawn order. Answers what those weigh that were left over before.
    pub(crate) fn list_due(&mut self, hole: Hole) -> Result<u64, AllocError> {
        self.due.clear();
        let sorting = self.draw_sorting();
        self.add_out(sorting)?;
        let weight = self.add_open(sorting, hole)?;
        self.due.sort_unstable_by_key(|due| due.rank);
        Ok(weight)
    }
}
