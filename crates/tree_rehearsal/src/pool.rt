// The routes that a rehearsal has found, each once.

use crew_terms::Visit;
use indexmap::IndexSet;
use route_terms::Route;
use std::alloc::{AllocError, Global};

/// Routes with numbers, each of the first of the teams that are alike at the root: what one of these may do, another may,
/// unless a node forbids it.
#[derive(Drop)]
pub(crate) struct Pool {
    alloc: Global,
    routes: IndexSet<Route<'static>>,
    // For each team the first that is alike.
    firsts: Vec<u32>,
}

impl Pool {
    /// No routes yet.
    pub(crate) fn none(alloc: Global, firsts: Vec<u32>) -> Pool {
        Pool {
            alloc,
            routes: IndexSet::new(alloc),
            firsts,
        }
    }

    /// The first team that is like this one at the root.
    pub(crate) fn first_of(&self, team: u32) -> u32 {
        self.firsts.get(team as usize).copied().unwrap_or(team)
    }

    /// The number of a route of the team; AllocError where there is no memory.
    pub(crate) fn add(&mut self, team: u32, visits: &[Visit]) -> Result<usize, AllocError> {
        let route = Route::new(self.first_of(team), visits.to_vec(self.alloc)?);
        let (at, _) = self.routes.insert_full(route)?;
        Ok(at)
    }

    /// The numbers of all routes; AllocError where there is no memory.
    pub(crate) fn all(&self) -> Result<Vec<usize>, AllocError> {
        let mut numbers = Vec::new(self.alloc);
        for at in 0..self.routes.len() {
            numbers.push(at)?;
        }
        Ok(numbers)
    }

    /// The route with this number.
    pub(crate) fn route(&self, at: usize) -> Option<&Route<'static>> {
        self.routes.get_index(at)
    }
}
