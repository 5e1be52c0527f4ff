// The routes of a price run.
ghost use Rattle.std.specs.Prelude.{◌≡◌, ◌<◌, ◌++◌, ◌∷◌, [], length, slice_index_or, OnOk};

use crew_terms::Visit;
use label_pricing::Visits;
use std::alloc::{AllocError, Global};
use std::marker::Model;

/// A route for each team. In contracts: the list of their visits.
#[derive(Drop)]
pub struct StepRoutes {
    teams: Vec<Visits>,
}

impl Model for StepRoutes {
    ghost use Rattle.std.specs.Prelude.{List};
    ghost use Rattle.crew_terms.specs.declared.Visit.{Visit as TeamVisit};

    ghost Value = { List (List TeamVisit) };

    ghost view = { λ a. a.teams.items };
}

impl StepRoutes {
    /// These routes, team by team. It takes no memory.
    pub fn of(teams: Vec<Visits>) -> StepRoutes
        ensures { result ≡ teams.items }
    {
        StepRoutes { teams }
    }

    /// How many routes there are.
    pub fn len(&self) -> usize
        ensures { result ≡ length self.now }
    {
        self.teams.len()
    }

    /// The visits of team `k`.
    pub fn route(&self, k: usize) -> &[Visit]
        requires { k < length self.now }
        ensures { result.now ≡ slice_index_or self.now k [] }
    {
        self.teams[k].as_slice()
    }
}

/// The routes of each step of a price run. In contracts: the list of them.
#[derive(Drop)]
pub struct Trace {
    steps: Vec<StepRoutes>,
}

impl Model for Trace {
    ghost use Rattle.std.specs.Prelude.{List};
    ghost use Rattle.crew_terms.specs.declared.Visit.{Visit as TeamVisit};

    ghost Value = { List (List (List TeamVisit)) };

    ghost view = { λ a. a.steps.items };
}

impl Trace {
    /// That of no step.
    pub(crate) fn new(alloc: Global) -> Trace
        ensures { result ≡ [] }
    {
        Trace {
            steps: Vec::new(alloc),
        }
    }

    /// The trace with one more step.
    pub(crate) fn push(&mut self, routes: StepRoutes) -> Result<(), AllocError>
        ensures { OnOk result (self.new ≡ self.old ++ routes ∷ []) }
    {
        self.steps.push(routes)?;
        Ok(())
    }

    /// How many steps there are.
    pub fn len(&self) -> usize
        ensures { result ≡ length self.now }
    {
        self.steps.len()
    }

    /// The routes of step `s`, counted from 0.
    pub fn step(&self, s: usize) -> &StepRoutes
        requires { s < length self.now }
        ensures { result.now ≡ slice_index_or self.now s [] }
    {
        &self.steps[s]
    }
}
