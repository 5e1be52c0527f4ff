// Where a task fits into the orders.

use crate::facts::Facts;
use crate::memory::Memory;
use crate::orders::Orders;
use std::alloc::AllocError;

/// A place for a task in the day of a team, behind a task or none, where another may have to go out; from when to when the
/// task can begin there, and what it costs.
#[derive(Clone, Copy, Default)]
pub(crate) struct Place {
    pub(crate) team: u32,
    pub(crate) behind: Option<u32>,
    pub(crate) out: Option<u32>,
    pub(crate) first: u32,
    pub(crate) last: u32,
    pub(crate) cost: u32,
}

impl Orders {
    // The place of task `j` in the day of team `k` behind one task and before another, where it fits.
    fn between(
        &self,
        facts: &Facts,
        k: u32,
        j: u32,
        behind: Option<u32>,
        next: Option<u32>,
    ) -> Option<Place> {
        let span = facts.span(k, j);
        let here = self.timing(j);
        let mut first = span.first;
        let mut last = span.last;
        if let Some(next) = next {
            let next = self.timing(next);
            last = last.min(next.late.checked_sub(here.lag(facts, next))?);
        }
        if let Some(before) = behind {
            let before = self.timing(before);
            first = first.max(before.early.saturating_add(before.lag(facts, here)));
        }
        if first > last {
            return None;
        }
        Some(Place {
            team: k,
            behind,
            out: None,
            first,
            last,
            cost: 0,
        })
    }

    // By how many minutes a stop at task `j` makes the way of a team longer.
    fn detour(&self, facts: &Facts, j: u32, behind: Option<u32>, next: Option<u32>) -> u32 {
        let here = self.timing(j).place;
        let place = |other: Option<u32>| match other {
            Some(task) => self.timing(task).place,
            None => here,
        };
        let (from, to) = (place(behind), place(next));
        facts
            .way(from, here)
            .saturating_add(facts.way(here, to))
            .saturating_sub(facts.way(from, to))
    }

    // The place of task `j` at a place in the order of team `k`, at the cost of the detour.
    fn gap(&self, facts: &Facts, k: u32, at: usize, j: u32) -> Option<Place> {
        let behind = self.task_before(k, at);
        let next = self.task_at(k, at);
        let place = self.between(facts, k, j, behind, next)?;
        let cost = self.detour(facts, j, behind, next);
        Some(Place { cost, ..place })
    }

    // The place of task `j` in place of another in the order of team `k`, at the cost of the one that goes out.
    fn exchange(&self, facts: &Facts, k: u32, at: usize, j: u32, memory: &Memory) -> Option<Place> {
        let out = self.task_at(k, at)?;
        let cost = memory.cost_out(out)?;
        let next = self.task_at(k, at.saturating_add(1));
        let place = self.between(facts, k, j, self.task_before(k, at), next)?;
        Some(Place {
            out: Some(out),
            cost,
            ..place
        })
    }

    // Whether the task before a place in the order of team `k` begins at this minute or later.
    fn is_past(&self, k: u32, at: usize, minute: u32) -> bool {
        match self.task_before(k, at) {
            Some(before) => self.timing(before).early >= minute,
            None => false,
        }
    }

    // Whether the task at a place in the order of team `k` begins before this minute.
    fn is_before(&self, k: u32, at: usize, minute: u32) -> bool {
        match self.task_at(k, at) {
            Some(next) => self.timing(next).late < minute,
            None => false,
        }
    }

    /// Lists the places of task `j` between tasks of team `k`, at the cost of the detour.
    pub(crate) fn add_gaps(
        &self,
        facts: &Facts,
        k: u32,
        j: u32,
        places: &mut Vec<Place>,
    ) -> Result<(), AllocError> {
        let span = facts.span(k, j);
        for at in 0..=self.day(k).len() {
            if span.is_empty() || self.is_past(k, at, span.last) {
                return Ok(());
            }
            if !self.is_before(k, at, span.first) {
                if let Some(place) = self.gap(facts, k, at, j) {
                    places.push(place)?;
                }
            }
        }
        Ok(())
    }

    /// Lists the places of task `j` in place of tasks of team `k`, at the costs of those that go out.
    pub(crate) fn add_exchanges(
        &self,
        facts: &Facts,
        k: u32,
        j: u32,
        memory: &Memory,
        places: &mut Vec<Place>,
    ) -> Result<(), AllocError> {
        let span = facts.span(k, j);
        for at in 0..self.day(k).len() {
            if span.is_empty() || self.is_past(k, at, span.last) {
                return Ok(());
            }
            if let Some(place) = self.exchange(facts, k, at, j, memory) {
                places.push(place)?;
            }
        }
        Ok(())
    }
}
