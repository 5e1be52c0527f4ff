// Tasks near to one another go out of the orders.

use crate::orders::Timing;
use crate::search::Search;
use std::alloc::AllocError;

// Tasks go out of the days of so many teams at most.
const MOST_TEAMS: usize = 4;

// So many tasks in succession go out of a day at most.
const LONGEST: usize = 3;

/// What a hole is made for: a task, and a minute.
#[derive(Clone, Copy)]
struct Centre {
    task: u32,
    minute: u32,
}

/// The minutes between which tasks went out.
#[derive(Clone, Copy)]
pub(crate) struct Hole {
    pub(crate) from: u32,
    pub(crate) until: u32,
}

impl Hole {
    // The hole, with the time of a task that goes out.
    fn and(self, timing: Timing) -> Hole {
        Hole {
            from: self.from.min(timing.early),
            until: self.until.max(timing.late.saturating_add(timing.minutes)),
        }
    }
}

impl Search<'_> {
    // A drawn minute of the task's window.
    fn draw_minute(&mut self, j: u32) -> u32 {
        let window = self.facts.window(j);
        let width = window.last.saturating_sub(window.first) as usize;
        let later = self.draws.below(width.saturating_add(1)) as u32;
        window.first.saturating_add(later)
    }

    // In three of four draws a task that is left over, at a minute of its window; else any task, at its start.
    fn draw_centre(&mut self) -> Centre {
        if self.draws.below(4) < 3 {
            let at = self.draws.below(self.pool.len());
            if let Some(task) = self.pool.get(at).copied() {
                let minute = self.draw_minute(task);
                return Centre { task, minute };
            }
        }
        let task = self.draws.below(self.facts.tasks() as usize) as u32;
        let minute = if self.orders.is_assigned(task) {
            self.orders.timing(task).early
        } else {
            self.draw_minute(task)
        };
        Centre { task, minute }
    }

    // In two of three draws a team that may do the task, else any.
    fn draw_team(&mut self, task: u32) -> u32 {
        if self.draws.below(3) < 2 {
            let chances = self.facts.chances(task);
            let at = self.draws.below(chances.len());
            if let Some(chance) = chances.get(at) {
                return chance.team;
            }
        }
        self.draws.below(self.orders.teams() as usize) as u32
    }

    // Takes up to so many tasks in succession out of a day, from a place in it on, but none that is frozen.
    fn cut(
        &mut self,
        team: u32,
        from: usize,
        length: usize,
        hole: Hole,
    ) -> Result<Hole, AllocError> {
        let mut at = from;
        let mut hole = hole;
        for _ in 0..length {
            let Some(task) = self.orders.task_at(team, at) else {
                return Ok(hole);
            };
            if self.facts.is_frozen(task) {
                at = at.saturating_add(1);
            } else {
                hole = hole.and(self.orders.timing(task));
                if self.old.is_kept(&self.orders, task) {
                    self.gone = self.gone.saturating_add(1);
                }
                self.orders.take_out(task)?;
                self.out.push(task)?;
            }
        }
        Ok(hole)
    }

    // Takes a string of tasks about the minute out of the team's day.
    fn cut_about(&mut self, team: u32, minute: u32, hole: Hole) -> Result<Hole, AllocError> {
        let length = 1 + self.draws.below(LONGEST);
        let back = self.draws.below(length + 1);
        let day = self.orders.day(team);
        let at = day.partition_point(|j| self.orders.timing(*j).early < minute);
        let from = at.saturating_sub(back);
        let from = from.min(day.len().saturating_sub(length));
        self.cut(team, from, length, hole)
    }

    /// Takes tasks out of the orders that are near to one another. Answers when they were.
    pub(crate) fn ruin(&mut self) -> Result<Hole, AllocError> {
        let Centre { task, minute } = self.draw_centre();
        let mut hole = Hole {
            from: minute,
            until: minute,
        };
        // A task of several teams needs room in several days.
        let wanted = self.facts.wanted(task).min(MOST_TEAMS);
        for _ in 0..wanted + self.draws.below(MOST_TEAMS + 1 - wanted) {
            let team = self.draw_team(task);
            hole = self.cut_about(team, minute, hole)?;
        }
        Ok(hole)
    }
}
