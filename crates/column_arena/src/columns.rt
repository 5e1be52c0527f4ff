// One list of columns.
ghost use Rattle.std.specs.Prelude.{◌≡◌, ◌<◌, List, All, IfOk, OnErr, length};
ghost use Rattle.crew_terms.specs.declared.TheConstants.{MOST_TASKS, MOST_TEAMS};
ghost use Rattle.crew_terms.specs.Limits.{Route};
ghost use Rattle.route_terms.specs.Routes.{route_of};
ghost use Rattle.column_arena.specs.Columns.{AreColumns, AreNumbersWith, IsAdded, IsUsing, column_of};

use crew_terms::Visit;
use std::alloc::AllocError;

/// The columns of a search: routes, each a team and the visits that it makes, none of them twice. A column keeps the
/// number that it got when it was added, from 0.
///
/// In contracts: the list of the routes.
pub trait Columns {
    ghost columns: { Self → List Route };

    /// How many columns there are.
    fn len(&self) -> usize
        ensures count { result ≡ length (columns self.now) }
        ensures are { AreColumns (columns self.now) };

    /// The team of a column.
    fn team(&self, id: usize) -> u32
        requires { id < length (columns self.now) }
        ensures { result ≡ (column_of (columns self.now) id).team };

    /// The visits of a column, in their order.
    fn visits(&self, id: usize) -> &[Visit]
        requires { id < length (columns self.now) }
        ensures { result.now ≡ (column_of (columns self.now) id).visits };

    /// The numbers, rising, of the columns of the team that visit the task. It takes no memory.
    fn using(&self, team: u32, task: u32) -> &[usize]
        requires team { team < MOST_TEAMS }
        requires task { task < MOST_TASKS }
        ensures { AreNumbersWith (IsUsing (columns self.now) team task) result.now };

    /// The number of the column of the team with these visits. Where there is none yet, it is put last. All memory is
    /// taken first; where it runs out, the columns are as before.
    fn add(&mut self, team: u32, visits: &[Visit]) -> Result<usize, AllocError>
        requires team { team < MOST_TEAMS }
        requires some { 0 < length visits.now }
        requires tasks { All (λ v. v.task < MOST_TASKS) visits.now }
        ensures added { IfOk result (λ id. IsAdded (columns self.old) (route_of team visits.now) id
            (columns self.new)) }
        ensures err { OnErr result (columns self.new ≡ columns self.old) };
}
