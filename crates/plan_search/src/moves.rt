// Tasks are put into the orders and taken out of them.

use crate::facts::Facts;
use crate::orders::{Orders, UNKNOWN, Walk};
use crate::places::Place;
use arrayvec::ArrayVec;
use crew_terms::MOST_TEAMS_PER_TASK;
use std::alloc::AllocError;

/// The places in days that a task has left.
type Gaps = ArrayVec<Walk, MOST_TEAMS_PER_TASK>;

impl Orders {
    /// Works out when each task can begin.
    pub(crate) fn time_all(&mut self, facts: &Facts) -> Result<(), AllocError> {
        for team in 0..self.teams() {
            self.due.push(Walk { team, at: 0 })?;
        }
        self.settle_early(facts, false)?;
        for team in 0..self.teams() {
            let at = self.day(team).len();
            self.due.push(Walk { team, at })?;
        }
        self.settle_late(facts)
    }

    // Takes task `j` out of the days of its teams.
    fn take_out(&mut self, j: u32) -> Gaps {
        let mut gaps = ArrayVec::new();
        for team in self.take_crew(j).as_slice() {
            if let Some(at) = self.place_of(*team, j) {
                self.leave(*team, at);
                let _ = gaps.try_push(Walk { team: *team, at });
            }
        }
        gaps
    }

    // Whether each task of these days can begin.
    fn are_sound(&self, gaps: &[Walk]) -> bool {
        for gap in gaps {
            let late = |j: &u32| self.timing(*j).early > self.timing(*j).late;
            if self.day(gap.team).iter().any(late) {
                return false;
            }
        }
        true
    }

    /// Takes task `j` out of the orders. Answers whether each of the others can begin; that may fail where a way with a stop
    /// between takes less time than the direct one.
    pub(crate) fn remove(&mut self, facts: &Facts, j: u32) -> Result<bool, AllocError> {
        let gaps = self.take_out(j);
        self.due.extend_from_slice(gaps.as_slice())?;
        self.settle_early(facts, false)?;
        self.due.extend_from_slice(gaps.as_slice())?;
        self.settle_late(facts)?;
        Ok(self.are_sound(gaps.as_slice()))
    }

    // Enters task `j` at these places. Answers whether it could.
    fn enter_all(&mut self, j: u32, places: &[Place]) -> bool {
        for place in places {
            let Some(at) = self.place_behind(place.team, place.behind) else {
                return false;
            };
            if !self.enter(place.team, at, j) {
                return false;
            }
        }
        true
    }

    // Has a walk begin at task `j` in the day of its first team: there, or right behind it.
    fn begin_at(&mut self, j: u32, behind: bool) -> Result<(), AllocError> {
        if let Some(team) = self.crew(j).first().copied() {
            if let Some(at) = self.place_of(team, j) {
                let at = if behind { at.saturating_add(1) } else { at };
                self.due.push(Walk { team, at })?;
            }
        }
        Ok(())
    }

    /// Puts task `j`, which no team does, at these places. Answers whether each task can begin then; nothing is changed
    /// where not.
    pub(crate) fn put(
        &mut self,
        facts: &Facts,
        j: u32,
        places: &[Place],
    ) -> Result<bool, AllocError> {
        self.set_early(j, UNKNOWN);
        self.set_late(j, UNKNOWN);
        let entered = !places.is_empty() && self.enter_all(j, places);
        self.begin_at(j, false)?;
        if !self.settle_early(facts, true)? || !entered {
            self.remove(facts, j)?;
            return Ok(false);
        }
        self.begin_at(j, true)?;
        self.settle_late(facts)?;
        Ok(true)
    }
}
