// The routes that a scout chooses from: those that are held, the best plan's and such with one visit less, and found ones.
ghost use Rattle.std.specs.Prelude.{◌<◌};
ghost use Rattle.crew_terms.specs.Limits.{teams_in};

use crate::numbers::ONE;
use crate::rows::Rows;
use crate::simplex::Simplex;
use arrayvec::ArrayVec;
use column_arena::{Columns, legal_in};
use crew_instance::{Plan, fill_turns};
use crew_terms::Visit;
use indexmap::IndexSet;
use node_limits::Limits;
use price_ascent::FoundRoute;
use route_check::{RouteVerdict, check_route};
use route_terms::Route;
use std::alloc::{AllocError, Global};
use std::collections::VecDeque;

/// What a route costs that is neither held nor near the best plan: so the optimum that is nearest to these is found.
pub(crate) const SMALL: i64 = ONE / 10_000;

/// The routes that are offered, each once, those that are held first; and the simplex method over their shares.
#[derive(Drop)]
pub(crate) struct Offers {
    alloc: Global,
    pub(crate) rows: Rows,
    pub(crate) simplex: Simplex,
    routes: IndexSet<Route<'static>>,
    // How many of them are held.
    held: usize,
}

impl Offers {
    /// No routes yet; AllocError where there is no memory.
    pub(crate) fn none(alloc: Global, limits: &Limits<'_>) -> Result<Offers, AllocError> {
        let rows = Rows::of(alloc, limits)?;
        let simplex = Simplex::open(alloc, limits, &rows)?;
        Ok(Offers {
            alloc,
            rows,
            simplex,
            routes: IndexSet::new(alloc),
            held: 0,
        })
    }

    /// Offers a route that has visits at a cost, if it isn't offered yet. Answers whether it was new.
    pub(crate) fn offer(
        &mut self,
        team: u32,
        visits: &[Visit],
        cost: i64,
    ) -> Result<bool, AllocError> {
        if visits.is_empty() {
            return Ok(false);
        }
        let route = Route::new(team, visits.to_vec(self.alloc)?);
        if !self.routes.insert(route)? {
            return Ok(false);
        }
        let rows = self.rows.of_route(self.alloc, team, visits)?;
        self.simplex.variables.add_route(rows, cost)?;
        Ok(true)
    }

    /// Offers the columns that are routes in the node, at no cost.
    pub(crate) fn offer_held<C: Columns>(
        &mut self,
        limits: &Limits<'_>,
        columns: &C,
    ) -> Result<(), AllocError> {
        let mut legal = Vec::new(self.alloc);
        legal_in(limits, columns, &mut legal)?;
        for id in &legal {
            if *id < columns.len() {
                self.offer(columns.team(*id), columns.visits(*id), 0)?;
            }
        }
        self.held = self.routes.len();
        Ok(())
    }

    // Offers a route at no cost, if it is one of the team in the node.
    fn offer_legal(
        &mut self,
        limits: &Limits<'_>,
        team: u32,
        visits: &[Visit],
    ) -> Result<(), AllocError>
        requires { team < teams_in limits.now.limits }
    {
        if check_route(limits, team, visits) == RouteVerdict::Legal {
            self.offer(team, visits, 0)?;
        }
        Ok(())
    }

    // Offers the route of the plan for the team, and those with one visit less.
    fn offer_team(&mut self, limits: &Limits<'_>, plan: &Plan, team: u32) -> Result<(), AllocError>
        requires { team < teams_in limits.now.limits }
    {
        let visits = visits_of(self.alloc, plan, team)?;
        self.offer_legal(limits, team, &visits)?;
        for at in 0..visits.len() {
            let fewer = without(self.alloc, &visits, at)?;
            self.offer_legal(limits, team, &fewer)?;
        }
        Ok(())
    }

    /// Offers what is legal in the node of the routes of the plan and of these with one visit less, at no cost.
    pub(crate) fn offer_plan(
        &mut self,
        limits: &Limits<'_>,
        plan: &Plan,
    ) -> Result<(), AllocError> {
        for team in 0..limits.instance().teams() as u32 {
            self.offer_team(limits, plan, team)?;
        }
        Ok(())
    }

    /// Offers the routes of an ascent's last rounds, at a small cost.
    pub(crate) fn offer_found(&mut self, found: &VecDeque<FoundRoute>) -> Result<(), AllocError> {
        for route in found {
            self.offer(route.team, &route.visits, SMALL)?;
        }
        Ok(())
    }

    // What the route costs less, by the duals, than what it is worth.
    fn gain(&self, route: &FoundRoute) -> i64 {
        let duals = &self.simplex.duals;
        let mut gain = dual(duals, route.team as usize);
        for visit in &route.visits {
            gain = gain.saturating_add(dual(duals, self.rows.of_task(visit.task)));
            gain = gain.saturating_add(self.rows.pair_dual(duals, route.team, visit.task));
        }
        gain
    }

    /// Offers those of the routes that are worth more, by the duals, than they cost. Answers how many were new.
    pub(crate) fn offer_better(&mut self, found: &VecDeque<FoundRoute>) -> Result<u32, AllocError> {
        let mut added = 0u32;
        for route in found {
            if self.gain(route) > SMALL && self.offer(route.team, &route.visits, SMALL)? {
                added = added.saturating_add(1);
            }
        }
        Ok(added)
    }

    /// The route with this number, if it isn't held.
    pub(crate) fn route(&self, at: usize) -> Option<&Route<'static>> {
        if at < self.held {
            return None;
        }
        self.routes.get_index(at)
    }
}

/// The dual of a row.
pub(crate) fn dual(duals: &[i64], row: usize) -> i64 {
    duals.get(row).copied().unwrap_or(0)
}

// The visits of the team in the plan.
fn visits_of(alloc: Global, plan: &Plan, team: u32) -> Result<Vec<Visit>, AllocError> {
    let mut turns = ArrayVec::new();
    fill_turns(plan, team, &mut turns);
    let mut visits = Vec::new(alloc);
    for turn in turns.as_slice() {
        visits.push(Visit {
            task: turn.task,
            start: turn.start,
        })?;
    }
    Ok(visits)
}

// The visits without the one at a place.
fn without(alloc: Global, visits: &[Visit], at: usize) -> Result<Vec<Visit>, AllocError> {
    let mut fewer = Vec::new(alloc);
    for n in 0..visits.len() {
        if n != at {
            fewer.push(visits[n])?;
        }
    }
    Ok(fewer)
}
