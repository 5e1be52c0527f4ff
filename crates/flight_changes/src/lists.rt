// The lists of a day: its places, teams, tasks and travel times, which each entry changes.
ghost use Rattle.std.specs.Prelude.{◌≡◌, None, IfOk};
ghost use Rattle.day_terms.specs.State.{start};
ghost use Rattle.flight_changes.specs.Limits.{IsState};

use crew_terms::{Name, Task, Team};
use indexmap::{IndexMap, IndexSet};
use std::alloc::{AllocError, Global};
use std::marker::Model;

/// The places, teams and tasks of a day in the order in which they came, and the travel times: a state with no last plan
/// and no frozen jobs.
#[derive(Drop)]
pub(crate) struct Lists {
    pub(crate) alloc: Global,
    pub(crate) places: IndexSet<Name>,
    pub(crate) teams: IndexMap<Name, Team>,
    pub(crate) tasks: IndexMap<Name, Task>,
    // The times that were given, from the one place to the other.
    pub(crate) times: IndexMap<(Name, Name), u32>,
    pub(crate) default_minutes: Option<u32>,
}

impl Model for Lists {
    ghost use Rattle.day_terms.specs.State.{DayState};

    ghost Value = { DayState };

    ghost use Rattle.flight_changes.specs.Kept.{kept, AreKept};

    ghost view = { kept };

    ghost invariant = { AreKept };
}

impl Lists {
    /// The lists before the day's first entry.
    pub(crate) fn new(alloc: Global) -> Lists
        ensures { result ≡ start }
    {
        Lists {
            alloc,
            places: IndexSet::new(alloc),
            teams: IndexMap::new(alloc),
            tasks: IndexMap::new(alloc),
            times: IndexMap::new(alloc),
            default_minutes: None,
        }
    }

    /// A law: the lists are within the limits.
    pub(crate) fn are_within_limits(&self)
        ensures { IsState self.now }
    {
        let _ = &self.places;
    }

    /// Equal lists with memory of their own.
    pub(crate) fn copy(&self) -> Result<Lists, AllocError>
        ensures { IfOk result (λ lists. lists ≡ self.now) }
    {
        Ok(Lists {
            alloc: self.alloc,
            places: self.places.clone()?,
            teams: self.teams.clone()?,
            tasks: self.tasks.clone()?,
            times: self.times.clone()?,
            default_minutes: self.default_minutes,
        })
    }
}
