// Columns whose visits lie in an arena.
ghost use Rattle.std.specs.Prelude.{◌≡◌, []};

use crate::columns::Columns;
use crate::store::Store;
use bumpalo::Bump;
use crew_terms::Visit;
use route_terms::Route;
use std::alloc::{AllocError, Global};
use std::marker::Model;

/// Columns whose visits are slices of an arena that stands outside. They are placed there once, and given up with the
/// arena.
///
/// In contracts: the list of the routes.
#[derive(Drop)]
pub struct ArenaColumns<'a> {
    arena: &'a Bump,
    store: Store<'a>,
}

impl<'a> Model for ArenaColumns<'a> {
    ghost use Rattle.std.specs.Prelude.{List};
    ghost use Rattle.crew_terms.specs.Limits.{Route as TeamRoute};

    ghost Value = { List TeamRoute };

    ghost view = { λ c. c.store };
}

impl<'a> ArenaColumns<'a> {
    /// No columns yet in the arena. It takes no memory.
    pub fn new(alloc: Global, arena: &'a Bump) -> ArenaColumns<'a>
        ensures { result ≡ [] }
    {
        ArenaColumns {
            arena,
            store: Store::new(alloc),
        }
    }
}

impl<'a> Columns for ArenaColumns<'a> {
    ghost columns = { λ c. c };

    fn len(&self) -> usize {
        self.store.len()
    }

    fn team(&self, id: usize) -> u32 {
        self.store.route(id).team()
    }

    fn visits(&self, id: usize) -> &[Visit] {
        self.store.route(id).visits()
    }

    fn using(&self, team: u32, task: u32) -> &[usize] {
        self.store.using(team, task)
    }

    fn add(&mut self, team: u32, visits: &[Visit]) -> Result<usize, AllocError> {
        if let Some(id) = self.store.find(team, visits) {
            return Ok(id);
        }
        let arena = self.arena;
        let placed: &'a [Visit] = arena.try_alloc_slice_copy(visits)?;
        self.store.push(Route::lent(team, placed))
    }
}
