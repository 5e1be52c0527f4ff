// Where a task fits into the orders.

use crate::facts::{Chance, Facts};
use crate::orders::{Orders, Timing};
use std::alloc::AllocError;

/// A task in the day of a team, and when it can begin.
#[derive(Clone, Copy)]
struct Stop {
    task: u32,
    timing: Timing,
}

/// A place for a task in the day of a team, behind a task or none; from when to when the task can begin there, and what it
/// costs.
#[derive(Clone, Copy, Default)]
pub(crate) struct Place {
    pub(crate) team: u32,
    pub(crate) behind: Option<u32>,
    pub(crate) first: u32,
    pub(crate) last: u32,
    pub(crate) cost: u32,
}

// By how many minutes a stop at a task makes the way of a team longer.
fn detour(facts: &Facts, here: Timing, behind: Option<Stop>, next: Option<Stop>) -> u32 {
    let place = |other: Option<Stop>| match other {
        Some(stop) => stop.timing.place,
        None => here.place,
    };
    let (from, to) = (place(behind), place(next));
    facts
        .way(from, here.place)
        .saturating_add(facts.way(here.place, to))
        .saturating_sub(facts.way(from, to))
}

// The place of a task behind one task and before another, where it fits, at the cost of the detour.
fn gap(
    facts: &Facts,
    chance: Chance,
    here: Timing,
    behind: Option<Stop>,
    next: Option<Stop>,
) -> Option<Place> {
    let mut first = chance.span.first;
    let mut last = chance.span.last;
    if let Some(next) = next {
        last = last.min(next.timing.late.checked_sub(here.lag(facts, next.timing))?);
    }
    if let Some(before) = behind {
        let lag = before.timing.lag(facts, here);
        first = first.max(before.timing.early.saturating_add(lag));
    }
    if first > last {
        return None;
    }
    Some(Place {
        team: chance.team,
        behind: behind.map(|stop| stop.task),
        first,
        last,
        cost: detour(facts, here, behind, next),
    })
}

impl Orders {
    // Task `j`, and when it can begin.
    fn stop(&self, j: u32) -> Stop {
        Stop {
            task: j,
            timing: self.timing(j),
        }
    }

    /// Lists the places of task `j` between tasks of a team that may do it, at the cost of the detour.
    pub(crate) fn add_gaps(
        &self,
        facts: &Facts,
        chance: Chance,
        j: u32,
        places: &mut Vec<Place>,
    ) -> Result<(), AllocError> {
        let here = self.timing(j);
        let mut behind = None;
        for task in self.day(chance.team) {
            let next = self.stop(*task);
            if next.timing.late >= chance.span.first {
                if let Some(place) = gap(facts, chance, here, behind, Some(next)) {
                    places.push(place)?;
                }
            }
            if next.timing.early >= chance.span.last {
                return Ok(());
            }
            behind = Some(next);
        }
        if let Some(place) = gap(facts, chance, here, behind, None) {
            places.push(place)?;
        }
        Ok(())
    }
}
