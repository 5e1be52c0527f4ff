// Tasks are put in where they fit.

use crate::facts::Chance;
use crate::holes::Hole;
use crate::picks::cheapest;
use crate::queue::Due;
use crate::search::Search;
use std::alloc::AllocError;

// What a place costs more is drawn below this, and a place is passed over where a draw is below it of so many.
const NOISE: usize = 3;

const PASSED_OVER: usize = 150;

impl Search<'_> {
    // Lists the places of task `j` between other tasks of a team.
    fn list_of_team(&mut self, chance: Chance, j: u32) -> Result<(), AllocError> {
        let looks = self.orders.day(chance.team).len() as u64;
        self.looks = self.looks.saturating_add(looks).saturating_add(1);
        self.orders
            .add_gaps(&self.facts, chance, j, &mut self.places)
    }

    // Lists the places of task `j` between other tasks, of all teams, or of those of which something changed in this trial.
    fn list_places(&mut self, j: u32, changed: bool) -> Result<(), AllocError> {
        self.places.clear();
        for n in 0..self.facts.chances(j).len() {
            let Some(chance) = self.facts.chances(j).get(n).copied() else {
                return Ok(());
            };
            if !changed || self.orders.changed_since(chance.team, self.now) {
                self.list_of_team(chance, j)?;
            }
        }
        Ok(())
    }

    // Passes over some of the places of task `j`, and has the others cost a little more, by draws and with other teams than in
    // the old plan.
    fn spoil(&mut self, j: u32) {
        for at in (0..self.places.len()).rev() {
            let draw = self.draws.below(PASSED_OVER);
            if draw < NOISE {
                if at < self.places.len() {
                    self.places.swap_remove(at);
                }
            } else if let Some(place) = self.places.get_mut(at) {
                let more = self.old.cost(j, place.team);
                let noise = (draw % NOISE) as u32;
                place.cost = place.cost.saturating_add(noise).saturating_add(more);
            }
        }
    }

    // Puts a task where it fits with about the least detours. Answers whether it could.
    fn insert(&mut self, due: Due) -> Result<bool, AllocError> {
        let wanted = self.facts.wanted(due.task);
        self.list_places(due.task, due.was_open)?;
        if due.was_open && wanted > 1 && !self.places.is_empty() {
            self.list_places(due.task, false)?;
        }
        self.spoil(due.task);
        let picks = cheapest(&mut self.draws, &mut self.places, wanted);
        if picks.is_empty() {
            return Ok(false);
        }
        self.orders.put(&self.facts, due.task, picks.as_slice())
    }

    // Puts the tasks that are due where they fit. Answers what those weigh that don't, or nothing if that is more than this.
    fn insert_all(&mut self, most: u64) -> Result<Option<u64>, AllocError> {
        let mut left = 0u64;
        for at in 0..self.due.len() {
            let Some(due) = self.due.get(at).copied() else {
                return Ok(Some(left));
            };
            if !self.insert(due)? {
                left = left.saturating_add(u64::from(self.weights.of(due.task)));
                if left > most {
                    return Ok(None);
                }
            }
        }
        Ok(Some(left))
    }

    /// Puts the tasks that went out, and those near to the hole that were left over, where they fit. Answers whether what is
    /// left over weighs no more than before, or as much more as it may.
    pub(crate) fn recreate(&mut self, hole: Hole) -> Result<bool, AllocError> {
        let before = self.list_due(hole)?;
        let most = before.saturating_add(self.weights.rise(&mut self.draws));
        match self.insert_all(most)? {
            Some(left) => Ok(self.keeps_enough(before, left)),
            None => Ok(false),
        }
    }
}
