// The routes that are handed over.
ghost use Rattle.std.specs.Prelude.{◌≡◌, ◌≤◌, ◌+◌, IfOk, IsTrue, length};
ghost use Rattle.route_terms.specs.Routes.{IsNew};
ghost use Rattle.search_terms.specs.Search.{IsColumn};
ghost use Rattle.column_scout.specs.Fresh.{AreFresh};

use crate::offers::Offers;
use column_arena::Columns;
use node_limits::Limits;
use route_check::{RouteVerdict, check_route};
use route_terms::Route;
use std::alloc::{AllocError, Global};
use std::cmp::Reverse;

/// A route that is basic, by its number, and the weight that it has.
#[derive(Clone, Copy)]
struct BasicRoute {
    weight: i64,
    route: usize,
}

// The routes that are basic, by falling weight and then by row.
fn basic_routes(alloc: Global, offers: &Offers) -> Result<Vec<BasicRoute>, AllocError> {
    let mut list = Vec::new(alloc);
    for line in &offers.simplex.lines {
        if let Some(route) = offers.simplex.variables.route_of(line.basic) {
            list.push(BasicRoute {
                weight: line.value,
                route,
            })?;
        }
    }
    list.sort_by_key(|one| Reverse(one.weight))?;
    Ok(list)
}

// Whether the route has visits, and is one of its team in the node.
fn is_column(limits: &Limits<'_>, route: &Route<'_>) -> bool
    ensures { IsTrue result → IsColumn limits.now.limits route.now }
{
    if route.team() as usize >= limits.instance().teams() || route.visits().is_empty() {
        return false;
    }
    match check_route(limits, route.team(), route.visits()) {
        RouteVerdict::Legal => true,
        RouteVerdict::BadVisit(_) | RouteVerdict::BadStep(_) => false,
    }
}

// All columns, in order.
fn held_routes<C: Columns>(alloc: Global, columns: &C) -> Result<Vec<Route<'static>>, AllocError>
    ensures { IfOk result (λ routes. routes.items ≡ C.columns columns.now) }
{
    let mut routes = Vec::with_capacity(alloc, columns.len())?;
    for id in 0..columns.len() {
        let visits = columns.visits(id).to_vec(alloc)?;
        routes.push(Route::new(columns.team(id), visits))?;
    }
    Ok(routes)
}

// Whether the route is none of the columns.
fn is_not_held<C: Columns>(columns: &C, held: &[Route<'static>], route: &Route<'static>) -> bool
    requires { held.now ≡ C.columns columns.now }
    ensures { IsTrue result → IsNew (C.columns columns.now) route.now }
{
    let _ = columns.len();
    !held.contains(route)
}

// Whether the route is none of these.
fn is_other(routes: &[Route<'static>], route: &Route<'static>) -> bool
    ensures { IsTrue result → IsNew routes.now route.now }
{
    !routes.contains(route)
}

// Adds the route, if it may be added to the columns and isn't among these.
#[tactic(auto, using(crate::proofs::Fresh::fresh_more))]
fn add<C: Columns>(
    alloc: Global,
    limits: &Limits<'_>,
    columns: &C,
    held: &[Route<'static>],
    route: &Route<'static>,
    routes: &mut Vec<Route<'static>>,
) -> Result<(), AllocError>
    requires held { held.now ≡ C.columns columns.now }
    requires fresh { AreFresh limits.now.limits (C.columns columns.now) routes.old.items }
    ensures fresh { AreFresh limits.now.limits (C.columns columns.now) routes.new.items }
    ensures one { length routes.new.items ≤ length routes.old.items + 1 }
{
    if !is_column(limits, route) || !is_not_held(columns, held, route) || !is_other(routes, route) {
        return Ok(());
    }
    let visits = route.visits().to_vec(alloc)?;
    routes.push(Route::new(route.team(), visits))?;
    Ok(())
}

/// The routes that are basic, those of the greatest weight first, so many at most, that may be added to the columns.
#[tactic(auto, using(crate::proofs::Fresh::none_fresh))]
pub(crate) fn hand_over<C: Columns>(
    alloc: Global,
    limits: &Limits<'_>,
    columns: &C,
    offers: &Offers,
    most: u32,
) -> Result<Vec<Route<'static>>, AllocError>
    ensures fresh { IfOk result (λ routes. AreFresh limits.now.limits
        (C.columns columns.now) routes.items) }
    ensures few { IfOk result (λ routes. length routes.items ≤ most) }
{
    let mut routes: Vec<Route<'static>> = Vec::new(alloc);
    let held = held_routes(alloc, columns)?;
    let basic = basic_routes(alloc, offers)?;
    for one in &basic {
        if routes.len() >= most as usize {
            break;
        }
        if let Some(route) = offers.route(one.route) {
            add(alloc, limits, columns, &held, route, &mut routes)?;
        }
    }
    Ok(routes)
}
