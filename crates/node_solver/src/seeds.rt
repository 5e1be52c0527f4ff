// Few routes of the node as columns, which a scout finds.
ghost use Rattle.std.specs.Prelude.{◌≤◌, ℕ, All, IfOk};
ghost use Rattle.crew_terms.specs.Leaf.{IsOnRequired};
ghost use Rattle.node_solver.specs.Plans.{IsBestOf};
ghost use Rattle.potentials.specs.Prices.{ArePricesOf};
ghost use Rattle.search_terms.specs.Proven.{IsProvedCount, ProveAsMuch};
ghost use Rattle.search_terms.specs.Search.{Extends, IsColumn};

use crate::best_plan::BestPlan;
use crate::effort::Effort;
use branch_choice::Use;
use column_arena::Columns;
use column_scout::{Effort as ScoutEffort, Leads, Route, scout};
use crew_instance::Plan;
use node_limits::Limits;
use potentials::Prices;
use price_ascent::Ascended;
use std::alloc::{AllocError, Global};

/// The best prices before the master's run, and the greatest number of tasks that they prove unassigned.
#[derive(Drop)]
pub(crate) struct Known {
    pub(crate) prices: Prices,
    pub(crate) proved: u32,
}

// Adds the route, if no column equals it.
#[tactic(auto, using(crate::proofs::Growing::extends_added))]
fn add_route<C: Columns>(
    limits: &Limits<'_>,
    columns: &mut C,
    route: &Route<'static>,
) -> Result<(), AllocError>
    requires { IsColumn limits.now.limits route.now }
    ensures { Extends limits.now.limits (C.columns columns.old) (C.columns columns.new) }
{
    // No instance has more teams and tasks than columns can name.
    let _ = limits.instance();
    columns.add(route.team(), route.visits())?;
    Ok(())
}

// Adds routes to the columns, in their order.
fn add_routes<C: Columns>(
    limits: &Limits<'_>,
    columns: &mut C,
    routes: &[Route<'static>],
) -> Result<(), AllocError>
    requires { All (IsColumn limits.now.limits) routes.now }
    ensures { Extends limits.now.limits (C.columns columns.old) (C.columns columns.new) }
{
    for route in routes {
        add_route(limits, columns, route)?;
    }
    Ok(())
}

/// The prices that a scout comes back with, which goes out from an ascent and the best plan; the routes that it hands over are
/// added to the columns. There are none where the prices prove `now`.
fn add_scouted<C: Columns>(
    alloc: Global,
    limits: &Limits<'_>,
    found: Ascended,
    plan: &Plan,
    now: u32,
    columns: &mut C,
    effort: ScoutEffort,
) -> Result<Known, AllocError>
    requires prices { ArePricesOf limits.now.limits found.prices }
    requires required { IsOnRequired limits.now.limits found.prices }
    ensures count { IfOk result (λ k. IsProvedCount limits.now.limits k.prices k.proved) }
    ensures shape { IfOk result (λ k. ArePricesOf limits.now.limits k.prices) }
    ensures required { IfOk result (λ k. IsOnRequired limits.now.limits k.prices) }
    ensures as_much { IfOk result (λ k. ProveAsMuch limits.now.limits k.prices found.prices) }
    ensures extends { Extends limits.now.limits (C.columns columns.old) (C.columns columns.new) }
{
    let Ascended { prices, routes, .. } = found;
    let leads = Leads {
        routes: &routes,
        plan: Some(plan),
    };
    let scouted = scout(alloc, limits, columns, leads, prices, now, effort)?;
    add_routes(limits, columns, &scouted.routes)?;
    Ok(Known {
        prices: scouted.prices,
        proved: scouted.proved,
    })
}

/// The prices that a scout comes back with, which goes out from an ascent and the best plan, and whose routes are added to the
/// columns. Where they prove too little and the effort has looks for it, a better plan is searched for, from the one that the
/// uses suggest, until it leaves what they prove.
pub(crate) fn scout_and_rebuild<C: Columns>(
    alloc: Global,
    limits: &Limits<'_>,
    found: Ascended,
    uses: &[Use],
    given: &Plan,
    columns: &mut C,
    effort: &Effort,
    best: &mut BestPlan,
) -> Result<Known, AllocError>
    requires prices { ArePricesOf limits.now.limits found.prices }
    requires required { IsOnRequired limits.now.limits found.prices }
    ensures count { IfOk result (λ k. IsProvedCount limits.now.limits k.prices k.proved) }
    ensures shape { IfOk result (λ k. ArePricesOf limits.now.limits k.prices) }
    ensures required { IfOk result (λ k. IsOnRequired limits.now.limits k.prices) }
    ensures as_much { IfOk result (λ k. ProveAsMuch limits.now.limits k.prices found.prices) }
    ensures extends { Extends limits.now.limits (C.columns columns.old) (C.columns columns.new) }
    ensures best { (b : ℕ) → IsBestOf limits.now.limits.instance b best.old
        → IsBestOf limits.now.limits.instance b best.new }
    ensures fewer { best.new.unassigned ≤ best.old.unassigned }
{
    let now = best.unassigned;
    let plan = best.or(given);
    let known = add_scouted(alloc, limits, found, plan, now, columns, effort.scout)?;
    if known.proved >= now || effort.rebuild_again.looks == 0 {
        return Ok(known);
    }
    let instance = limits.instance();
    best.rebuild_uses(alloc, instance, uses, known.proved, effort.rebuild_again)?;
    Ok(known)
}
