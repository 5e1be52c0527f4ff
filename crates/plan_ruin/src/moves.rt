// Tasks are put into the orders and taken out of them.

use crate::facts::Facts;
use crate::orders::{Change, Orders, UNKNOWN, Walk};
use crate::places::Place;
use std::alloc::AllocError;

// The number of no team.
const NO_TEAM: u32 = u32::MAX;

impl Orders {
    /// Works out when each task can begin.
    pub(crate) fn time_all(&mut self, facts: &Facts) -> Result<(), AllocError> {
        for team in 0..self.teams() {
            self.due.push(Walk { team, at: 0 })?;
        }
        self.settle_early(facts, false)?;
        for team in 0..self.teams() {
            let at = self.day(team).len();
            self.due.push(Walk { team, at })?;
        }
        self.settle_late(facts)
    }

    /// Takes task `j` out of the days of its teams. When the others can begin is worked out by `settle`.
    pub(crate) fn take_out(&mut self, j: u32) -> Result<(), AllocError> {
        for _ in 0..self.crew(j).len() {
            if let Some(gap) = self.leave_last(j)? {
                self.gaps.push(gap)?;
            }
        }
        Ok(())
    }

    /// Has task `j` begin at this minute, and others later for it, if it begins sooner and can begin then.
    pub(crate) fn delay(&mut self, facts: &Facts, j: u32, minute: u32) -> Result<(), AllocError> {
        let timing = self.timing(j);
        if minute <= timing.early || minute > timing.late {
            return Ok(());
        }
        self.set_early(j, minute)?;
        self.go_on(j, NO_TEAM, true)?;
        self.settle_early(facts, false)?;
        Ok(())
    }

    // Whether each task whose first or last minute changed can begin.
    fn is_sound(&self) -> bool {
        for change in self.trail() {
            let task = match change {
                Change::Early { task, .. } | Change::Late { task, .. } => *task,
                Change::Left { .. } | Change::Entered { .. } => continue,
            };
            let timing = self.timing(task);
            if timing.early > timing.late {
                return false;
            }
        }
        true
    }

    /// Works out when tasks can begin after others were taken out. Answers whether each can; that may fail where a way with a
    /// stop between takes less time than the direct one.
    pub(crate) fn settle(&mut self, facts: &Facts) -> Result<bool, AllocError> {
        self.due.extend_from_slice(&self.gaps)?;
        self.settle_early(facts, false)?;
        self.due.extend_from_slice(&self.gaps)?;
        self.settle_late(facts)?;
        self.gaps.clear();
        Ok(self.is_sound())
    }

    // Enters task `j` at these places. Answers whether it could.
    fn enter_all(&mut self, j: u32, places: &[Place]) -> Result<bool, AllocError> {
        for place in places {
            let Some(at) = self.place_behind(place.team, place.behind) else {
                return Ok(false);
            };
            if !self.enter(place.team, at, j)? {
                return Ok(false);
            }
        }
        Ok(!places.is_empty())
    }

    // Has a walk begin at task `j` in the day of its first team: there, or right behind it.
    fn begin_at(&mut self, j: u32, behind: bool) -> Result<(), AllocError> {
        if let Some(team) = self.crew(j).first().copied() {
            if let Some(at) = self.place_of(team, j) {
                let at = if behind { at.saturating_add(1) } else { at };
                self.due.push(Walk { team, at })?;
            }
        }
        Ok(())
    }

    /// Puts task `j`, which no team does, at these places. Answers whether each task can begin then; nothing is changed
    /// where not.
    pub(crate) fn put(
        &mut self,
        facts: &Facts,
        j: u32,
        places: &[Place],
    ) -> Result<bool, AllocError> {
        let before = self.changes();
        self.set_early(j, UNKNOWN)?;
        self.set_late(j, UNKNOWN)?;
        let entered = self.enter_all(j, places)?;
        self.begin_at(j, false)?;
        if !self.settle_early(facts, true)? || !entered {
            self.undo_to(before);
            return Ok(false);
        }
        self.begin_at(j, true)?;
        self.settle_late(facts)?;
        Ok(true)
    }
}
