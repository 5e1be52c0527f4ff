// Columns by names, from one round to the next.
ghost use Rattle.std.specs.Prelude.{◌≡◌, ◌<◌, [], ℕ, List, All, IfOk, MatchOption, OnErr, OnOk, length, map, take};
ghost use Rattle.crew_terms.specs.Limits.{Route as TeamRoute};
ghost use Rattle.route_terms.specs.Kept.{AreKeptIn, IsKeptAs};
ghost use Rattle.route_terms.specs.Named.{IsOfInstance, by_names, route_named, task_names as names_of_tasks, team_names as names_of_teams};
ghost use Rattle.column_arena.specs.Carried.{IsNamedBy};

use crate::columns::Columns;
use crate::names::{Renumbering, task_names, team_names};
use crew_instance::Instance;
use crew_terms::Name;
use node_limits::Limits;
use route_check::{RouteVerdict, check_route};
use route_terms::Route;
use std::alloc::{AllocError, Global};
use std::marker::Model;

/// Columns by the names of their teams and tasks.
///
/// In contracts: the list of them, in order.
#[derive(Drop)]
pub struct Carry {
    // The names of the teams and of the tasks, by the numbers that the routes have.
    teams: Vec<Name>,
    tasks: Vec<Name>,
    routes: Vec<Route<'static>>,
}

impl Model for Carry {
    ghost use Rattle.std.specs.Prelude.{List, map};
    ghost use Rattle.route_terms.specs.Named.{NamedRoute, route_named};
    ghost use Rattle.column_arena.specs.Carried.{AreCarried};

    ghost Value = { List NamedRoute };

    ghost view = { λ c. map (route_named c.teams.items c.tasks.items) c.routes.items };

    ghost invariant = { λ c. AreCarried c.teams.items c.tasks.items c.routes.items };
}

// The route of the limits that has the names of this one, where there is one.
fn kept(
    alloc: Global,
    limits: &Limits<'_>,
    teams: &Renumbering<'_>,
    tasks: &Renumbering<'_>,
    route: &Route<'_>,
) -> Result<Option<Route<'static>>, AllocError>
    requires teams { teams.now.new ≡ names_of_teams limits.now.limits.instance }
    requires tasks { tasks.now.new ≡ names_of_tasks limits.now.limits.instance }
    requires named { IsNamedBy teams.now.old tasks.now.old route.now }
    ensures { let named = route_named teams.now.old tasks.now.old route.now in
        IfOk result (λ found. MatchOption found
        ((r : TeamRoute) → IsKeptAs limits.now.limits named r → ⊥)
        (λ r. IsKeptAs limits.now.limits named r)) }
{
    let _ = limits.instance();
    let Some(team) = teams.number(route.team()) else {
        return Ok(None);
    };
    let Some(visits) = tasks.visits(alloc, route.visits())? else {
        return Ok(None);
    };
    match check_route(limits, team, &visits) {
        RouteVerdict::Legal => Ok(Some(Route::new(team, visits))),
        RouteVerdict::BadVisit(_) | RouteVerdict::BadStep(_) => Ok(None),
    }
}

// All columns, in order.
fn copied<C: Columns>(alloc: Global, columns: &C) -> Result<Vec<Route<'static>>, AllocError>
    ensures { IfOk result (λ routes. routes.items ≡ C.columns columns.now) }
{
    let mut routes = Vec::with_capacity(alloc, columns.len())?;
    for id in 0..columns.len() {
        let visits = columns.visits(id).to_vec(alloc)?;
        routes.push(Route::new(columns.team(id), visits))?;
    }
    Ok(routes)
}

impl Carry {
    /// All columns by names. Their teams and tasks are those of the instance.
    pub fn take<C: Columns>(
        alloc: Global,
        instance: &Instance,
        columns: &C,
    ) -> Result<Carry, AllocError>
        requires { All (IsOfInstance instance.now) (C.columns columns.now) }
        ensures { IfOk result (λ carry. carry
            ≡ map (by_names instance.now) (C.columns columns.now)) }
    {
        // Names of an instance differ, so columns by names do; and none has no visits.
        let _ = instance.teams();
        let _ = columns.len();
        let teams = team_names(alloc, instance)?;
        let tasks = task_names(alloc, instance)?;
        let routes = copied(alloc, columns)?;
        Ok(Carry {
            teams,
            tasks,
            routes,
        })
    }

    /// Adds the routes that are kept to columns of which there are none yet, in order: those whose team and tasks exist
    /// by name and that are routes in the limits. Answers how many there are. Where memory runs out, the columns are the
    /// first of them.
    pub fn place<C: Columns>(
        &self,
        limits: &Limits<'_>,
        columns: &mut C,
    ) -> Result<usize, AllocError>
        requires { C.columns columns.old ≡ [] }
        ensures kept { OnOk result (AreKeptIn limits.now.limits self.now (C.columns columns.new)) }
        ensures count { IfOk result (λ count. count ≡ length (C.columns columns.new)) }
        ensures err { OnErr result ((m : ℕ) × AreKeptIn limits.now.limits (take m self.now)
            (C.columns columns.new)) }
    {
        let alloc = *self.routes.allocator();
        let instance = limits.instance();
        let teams = Renumbering::new(alloc, &self.teams, &team_names(alloc, instance)?)?;
        let tasks = Renumbering::new(alloc, &self.tasks, &task_names(alloc, instance)?)?;
        for id in 0..self.routes.len() {
            let Some(route) = kept(alloc, limits, &teams, &tasks, &self.routes[id])? else {
                continue;
            };
            columns.add(route.team(), route.visits())?;
        }
        Ok(columns.len())
    }
}
