// The pool: routes in their order, none of them twice.
ghost use Rattle.std.specs.Prelude.{◌≡◌, ◌≢◌, ◌<◌, [], length, slice_index_or, AllPairs, IfOk, OnErr, IsTrue, ◌↔◌};
ghost use Rattle.crew_terms.specs.Limits.{IsRoute, teams_in};
ghost use Rattle.route_pool.specs.Verdict.{IsPoolVerdict, pool_after};

use indexmap::IndexSet;
use node_limits::Limits;
use route_check::{RouteVerdict, check_route};
use route_terms::Route;
use std::alloc::{AllocError, Global};
use std::marker::Model;

/// Whether a route was added to a pool, or why it was not: the first of these that fails.
#[derive(Clone, Copy, Debug, PartialEq, Eq)]
pub enum PoolVerdict {
    /// It now stands last in the pool.
    Added,
    /// Its visits are no route of its team.
    NotRoute,
    /// It stands in the pool already.
    Repeated,
}

/// The routes of a dossier's pool, in their order, none of them twice.
///
/// In contracts: the list of the routes.
#[derive(Drop)]
pub struct Pool {
    routes: IndexSet<Route<'static>>,
}

impl Model for Pool {
    ghost use Rattle.std.specs.Prelude.{List};
    ghost use Rattle.crew_terms.specs.Limits.{Route as TeamRoute};

    ghost Value = { List TeamRoute };

    ghost view = { λ p. p.routes.keys };
}

/// Whether the visits are a route of the team.
fn is_route(limits: &Limits<'_>, route: &Route<'_>) -> bool
    requires { route.now.team < teams_in limits.now.limits }
    ensures { IsTrue result ↔ IsRoute limits.now.limits route.now.team route.now.visits }
{
    match check_route(limits, route.team(), route.visits()) {
        RouteVerdict::Legal => true,
        RouteVerdict::BadVisit(_) | RouteVerdict::BadStep(_) => false,
    }
}

impl Pool {
    /// A pool with no routes; it takes no memory.
    pub fn new(alloc: Global) -> Pool
        ensures { result ≡ [] }
    {
        Pool {
            routes: IndexSet::new(alloc),
        }
    }

    /// Puts the route last in the pool. It is refused where its visits are no route of its team in the
    /// limits, or else where an equal route stands in the pool; memory may run out in place of an
    /// addition. The pool is then as before.
    pub fn add(
        &mut self,
        limits: &Limits<'_>,
        route: Route<'static>,
    ) -> Result<PoolVerdict, AllocError>
        requires { route.team < teams_in limits.now.limits }
        ensures verdict { IfOk result (IsPoolVerdict limits.now.limits self.old route.entry) }
        ensures pool { IfOk result (pool_after self.old route.entry self.new) }
        ensures err { OnErr result (self.new ≡ self.old) }
    {
        if !is_route(limits, &route) {
            return Ok(PoolVerdict::NotRoute);
        }
        if !self.routes.insert(route)? {
            return Ok(PoolVerdict::Repeated);
        }
        Ok(PoolVerdict::Added)
    }

    /// How many routes there are.
    pub fn len(&self) -> usize
        ensures { result ≡ length self.now }
    {
        self.routes.len()
    }

    /// Whether there are no routes.
    pub fn is_empty(&self) -> bool
        ensures { IsTrue result ↔ (self.now ≡ []) }
    {
        self.routes.is_empty()
    }

    /// The route at the place `n`, from 0.
    pub fn route(&self, n: usize) -> &Route<'static>
        requires { n < length self.now }
        ensures { result.now ≡ slice_index_or self.now n result.now }
    {
        &self.routes()[n]
    }

    /// The routes, in their order.
    pub fn routes(&self) -> &[Route<'static>]
        ensures routes { result.now ≡ self.now }
        ensures apart { AllPairs (λ a b. a ≢ b) self.now }
    {
        self.routes.as_slice()
    }

    /// Removes all routes; the memory stays for others.
    pub fn clear(&mut self)
        ensures { self.new ≡ [] }
    {
        self.routes.clear();
    }
}
