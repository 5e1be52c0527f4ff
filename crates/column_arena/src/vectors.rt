// Columns in vectors.
ghost use Rattle.std.specs.Prelude.{◌≡◌, []};

use crate::columns::Columns;
use crate::store::Store;
use crew_terms::Visit;
use route_terms::Route;
use std::alloc::{AllocError, Global};
use std::marker::Model;

/// Columns whose visits are vectors of their own.
///
/// In contracts: the list of the routes.
#[derive(Drop)]
pub struct VecColumns {
    store: Store<'static>,
}

impl Model for VecColumns {
    ghost use Rattle.std.specs.Prelude.{List};
    ghost use Rattle.crew_terms.specs.Limits.{Route as TeamRoute};

    ghost Value = { List TeamRoute };

    ghost view = { λ c. c.store };
}

impl VecColumns {
    /// No columns. It takes no memory.
    pub fn new(alloc: Global) -> VecColumns
        ensures { result ≡ [] }
    {
        VecColumns {
            store: Store::new(alloc),
        }
    }
}

impl Columns for VecColumns {
    ghost columns = { λ c. c };

    fn len(&self) -> usize {
        self.store.len()
    }

    fn team(&self, id: usize) -> u32 {
        self.store.route(id).team()
    }

    fn visits(&self, id: usize) -> &[Visit] {
        self.store.route(id).visits()
    }

    fn using(&self, team: u32, task: u32) -> &[usize] {
        self.store.using(team, task)
    }

    fn add(&mut self, team: u32, visits: &[Visit]) -> Result<usize, AllocError> {
        if let Some(id) = self.store.find(team, visits) {
            return Ok(id);
        }
        let copy = visits.to_vec(self.store.alloc())?;
        self.store.push(Route::new(team, copy))
    }
}
