// The instance of a moment, and what travel time it lacks.
ghost use Rattle.std.specs.Prelude.{◌≡◌, ℕ, [], IfOk};
ghost use Rattle.day_terms.specs.Rounds.{first_missing};
ghost use Rattle.day_terms.specs.Instances.{day_instance};
ghost use Rattle.flight_changes.specs.Faults.{answer_by_lists};

use crate::faults::ChangeFault;
use crate::lists::Lists;
use crew_instance::{Instance, TravelTimes, first_missing, minutes_rows};
use crew_terms::{Name, Task, Team};
use day_terms::Entry;
use std::alloc::AllocError;

impl Lists {
    /// The instance of the lists, with no frozen job; a missing travel time counts as 0. Memory may run out.
    pub(crate) fn instance(&self) -> Result<Instance, AllocError>
        ensures { IfOk result
            (λ instance. instance ≡ day_instance (record self.now { frozen = [] })) }
    {
        let places = Vec::from_slice(self.alloc, self.places.as_slice())?;
        let teams = self.all_teams()?;
        let tasks = self.all_tasks()?;
        let travel = minutes_rows(self.alloc, self)?;
        Ok(Instance::of_parts(places, teams, tasks, travel))
    }

    fn all_teams(&self) -> Result<Vec<Team>, AllocError>
        ensures { IfOk result (λ teams. teams.items ≡ self.now.teams) }
    {
        self.teams.values().copied().collect(self.alloc)
    }

    fn all_tasks(&self) -> Result<Vec<Task>, AllocError>
        ensures { IfOk result (λ tasks. tasks.items ≡ self.now.tasks) }
    {
        self.tasks.values().copied().collect(self.alloc)
    }

    /// Refuses a state that lacks a travel time.
    pub(crate) fn check_times(&self) -> Result<(), ChangeFault>
        ensures { (nodes : ℕ) → result ≡ answer_by_lists self.now (Entry.Plan nodes) }
    {
        match self.missing_time() {
            Some((from, to)) => Err(ChangeFault::MissingTravel { from, to }),
            None => Ok(()),
        }
    }

    /// The first two different places of which nothing says the time from the one to the other.
    fn missing_time(&self) -> Option<(Name, Name)>
        ensures { result ≡ first_missing self.now }
    {
        let places = self.places.as_slice();
        let (from, to) = first_missing(self)?;
        Some((places[from as usize], places[to as usize]))
    }
}

impl TravelTimes for Lists {
    ghost use Rattle.flight_changes.specs.Times.{known_times};

    ghost times = { known_times };

    fn place_count(&self) -> usize {
        self.places.len()
    }

    fn given(&self, a: u32, b: u32) -> Option<u32> {
        let places = self.places.as_slice();
        let way = (places[a as usize], places[b as usize]);
        self.times.get(&way).copied()
    }

    fn given_row(&self, _: u32) -> Option<&[u32]> {
        None
    }

    fn default_minutes(&self) -> Option<u32> {
        self.default_minutes
    }
}
