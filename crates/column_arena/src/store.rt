// Columns as they are kept, wherever their visits lie.
ghost use Rattle.std.specs.Prelude.{◌≡◌, ◌<◌, ◌++◌, ◌∷◌, [], IfOk, MatchOption, OnErr, OnOk, length};
ghost use Rattle.crew_terms.specs.declared.TheConstants.{MOST_TASKS, MOST_TEAMS};
ghost use Rattle.route_terms.specs.Routes.{IsNew, route_of};
ghost use Rattle.column_arena.specs.Columns.{AreColumns, AreNumbersWith, FitsColumns, IsUsing, column_of};

use crate::uses::{self, Uses};
use crew_terms::Visit;
use indexmap::IndexSet;
use route_terms::Route;
use std::alloc::{AllocError, Global};
use std::marker::Model;

/// Columns in the order in which they were added, found by hashing, with a table of those that visit each task.
///
/// In contracts: the list of the routes.
#[derive(Drop)]
pub struct Store<'v> {
    routes: IndexSet<Route<'v>>,
    // The numbers of the columns of each team that visit each task.
    uses: Vec<Uses>,
}

impl<'v> Model for Store<'v> {
    ghost use Rattle.std.specs.Prelude.{List};
    ghost use Rattle.crew_terms.specs.Limits.{Route as TeamRoute};

    ghost Value = { List TeamRoute };

    ghost use Rattle.column_arena.specs.Kept.{AreKept};

    ghost view = { λ s. s.routes.keys };

    ghost invariant = { λ s. AreKept s.routes.keys s.uses.items };
}

impl<'v> Store<'v> {
    /// No columns. It takes no memory.
    pub fn new(alloc: Global) -> Store<'v>
        ensures { result ≡ [] }
    {
        Store {
            routes: IndexSet::new(alloc),
            uses: Vec::new(alloc),
        }
    }

    /// The allocator.
    pub fn alloc(&self) -> Global {
        *self.uses.allocator()
    }

    /// How many columns there are.
    pub fn len(&self) -> usize
        ensures count { result ≡ length self.now }
        ensures are { AreColumns self.now }
    {
        self.routes.len()
    }

    /// The column with the number.
    pub fn route(&self, id: usize) -> &Route<'v>
        requires { id < length self.now }
        ensures { result.now ≡ column_of self.now id }
    {
        &self.routes.as_slice()[id]
    }

    /// The numbers, rising, of the columns of the team that visit the task.
    pub fn using(&self, team: u32, task: u32) -> &[usize]
        requires team { team < MOST_TEAMS }
        requires task { task < MOST_TASKS }
        ensures { AreNumbersWith (IsUsing self.now team task) result.now }
    {
        uses::using(&self.uses, team, task)
    }

    /// The number of the column of the team with these visits; None exactly where there is none.
    pub fn find(&self, team: u32, visits: &[Visit]) -> Option<usize>
        ensures { MatchOption result
            (IsNew self.now (route_of team visits.now))
            (λ id. (id < length self.now) × (column_of self.now id ≡ route_of team visits.now)) }
    {
        self.routes.get_index_of(&Route::lent(team, visits))
    }

    /// Puts a column last that has no equal, and answers its number. All memory is taken first; where it runs out, the
    /// columns are as before.
    pub fn push(&mut self, route: Route<'v>) -> Result<usize, AllocError>
        requires fits { FitsColumns route }
        requires fresh { IsNew self.old route }
        ensures number { IfOk result (λ id. id ≡ length self.old) }
        ensures last { OnOk result (self.new ≡ self.old ++ route.entry ∷ []) }
        ensures err { OnErr result (self.new ≡ self.old) }
    {
        self.routes.reserve(1)?;
        uses::reserve(&mut self.uses, route.team(), route.visits())?;
        let id = self.routes.len();
        uses::note(&mut self.uses, route.team(), route.visits(), id);
        self.routes.insert(route).unwrap();
        Ok(id)
    }
}
