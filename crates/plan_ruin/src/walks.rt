// How the first and last minutes of tasks follow from the orders: by longest paths, from both ends, along those days that a
// change reaches.

use crate::facts::Facts;
use crate::orders::{Orders, UNKNOWN, Walk};
use std::alloc::AllocError;

// A change reaches its end in far fewer walks, unless the orders have a circle.
const MOST_WALKS: u32 = 100_000;

impl Orders {
    // The first minute of task `j` at its place in the order of team `k`.
    fn early_at(&self, facts: &Facts, k: u32, at: usize, j: u32) -> u32 {
        let first = facts.span(k, j).first;
        match self.task_before(k, at) {
            Some(before) => {
                let before = self.timing(before);
                let ready = before
                    .early
                    .saturating_add(before.lag(facts, self.timing(j)));
                first.max(ready)
            }
            None => first,
        }
    }

    // The last minute of task `j` at its place in the order of team `k`.
    fn late_at(&self, facts: &Facts, k: u32, at: usize, j: u32) -> u32 {
        let last = facts.span(k, j).last;
        match self.task_at(k, at.saturating_add(1)) {
            Some(next) => {
                let next = self.timing(next);
                last.min(next.late.saturating_sub(self.timing(j).lag(facts, next)))
            }
            None => last,
        }
    }

    // The first minute of task `j` at which each of its teams can begin it.
    fn early_of_all(&self, facts: &Facts, j: u32) -> u32 {
        let mut early = 0;
        for k in self.crew(j) {
            if let Some(at) = self.place_of(*k, j) {
                early = early.max(self.early_at(facts, *k, at, j));
            }
        }
        early
    }

    // The last minute of task `j` at which each of its teams can begin it.
    fn late_of_all(&self, facts: &Facts, j: u32) -> u32 {
        let mut late = UNKNOWN;
        for k in self.crew(j) {
            if let Some(at) = self.place_of(*k, j) {
                late = late.min(self.late_at(facts, *k, at, j));
            }
        }
        late
    }

    /// Has walks begin before task `j`, or behind it, along the days of its teams but this one.
    pub(crate) fn go_on(&mut self, j: u32, from: u32, behind: bool) -> Result<(), AllocError> {
        for n in 0..self.crew(j).len() {
            let team = self.crew(j).get(n).copied().unwrap_or(from);
            if team != from {
                if let Some(at) = self.place_of(team, j) {
                    let at = if behind { at.saturating_add(1) } else { at };
                    self.due.push(Walk { team, at })?;
                }
            }
        }
        Ok(())
    }

    // Walks from a place to the end of a day, up to a task whose first minute stays, or up to one that can't begin any more,
    // if it is to end there. Answers whether it didn't.
    fn walk_on(&mut self, facts: &Facts, walk: Walk, ends: bool) -> Result<bool, AllocError> {
        for at in walk.at..self.day(walk.team).len() {
            let Some(j) = self.task_at(walk.team, at) else {
                return Ok(true);
            };
            let joint = self.crew(j).len() > 1;
            let early = if joint {
                self.early_of_all(facts, j)
            } else {
                self.early_at(facts, walk.team, at, j)
            };
            if !self.set_early(j, early)? {
                return Ok(true);
            }
            if ends && early > self.timing(j).late {
                return Ok(false);
            }
            if joint {
                self.go_on(j, walk.team, true)?;
            }
        }
        Ok(true)
    }

    // Walks from before a place to the begin of a day, up to a task whose last minute stays.
    fn walk_back(&mut self, facts: &Facts, walk: Walk) -> Result<(), AllocError> {
        for at in (0..walk.at).rev() {
            let Some(j) = self.task_at(walk.team, at) else {
                return Ok(());
            };
            let joint = self.crew(j).len() > 1;
            let late = if joint {
                self.late_of_all(facts, j)
            } else {
                self.late_at(facts, walk.team, at, j)
            };
            if !self.set_late(j, late)? {
                return Ok(());
            }
            if joint {
                self.go_on(j, walk.team, false)?;
            }
        }
        Ok(())
    }

    /// Makes the walks that are due, to the ends of days, or up to a task that can't begin any more, if they are to end there.
    /// Answers whether they didn't.
    pub(crate) fn settle_early(&mut self, facts: &Facts, ends: bool) -> Result<bool, AllocError> {
        for _ in 0..MOST_WALKS {
            let Some(walk) = self.due.pop() else {
                return Ok(true);
            };
            self.note_change(walk.team);
            if !self.walk_on(facts, walk, ends)? {
                self.due.clear();
                return Ok(false);
            }
        }
        self.due.clear();
        Ok(false)
    }

    /// Makes the walks that are due, to the begins of days.
    pub(crate) fn settle_late(&mut self, facts: &Facts) -> Result<(), AllocError> {
        for _ in 0..MOST_WALKS {
            let Some(walk) = self.due.pop() else {
                return Ok(());
            };
            self.note_change(walk.team);
            self.walk_back(facts, walk)?;
        }
        self.due.clear();
        Ok(())
    }
}
