// The scout: few routes at which a node's master comes to its optimum, and prices near to it.
ghost use Rattle.std.specs.Prelude.{◌≡◌, ◌≤◌, IfOk, length};
ghost use Rattle.crew_terms.specs.Leaf.{IsOnRequired};
ghost use Rattle.potentials.specs.Prices.{ArePricesOf};
ghost use Rattle.search_terms.specs.Proven.{IsProvedCount, ProveAsMuch};
ghost use Rattle.column_scout.specs.Fresh.{AreFresh};

use crate::effort::{Effort, Leads};
use crate::hand_over::hand_over;
use crate::offers::Offers;
use crate::rounds::{ONE_LOOK, Searched, search};
use column_arena::Columns;
use node_limits::Limits;
use potentials::Prices;
use price_ascent::ascend;
use route_terms::Route;
use search_laws::less_is_proved;
use std::alloc::{AllocError, Global};

/// What a scout comes back with: the best prices that it saw, and the greatest number of tasks that they prove unassigned;
/// the routes that are to be columns, in their order; and how many pivots and rounds it made.
#[derive(Drop)]
pub struct Scouted {
    pub prices: Prices,
    pub proved: u32,
    pub routes: Vec<Route<'static>>,
    pub pivots: u32,
    pub rounds: u32,
}

// What is offered at the beginning.
fn offers_of<C: Columns>(
    alloc: Global,
    limits: &Limits<'_>,
    columns: &C,
    leads: Leads<'_>,
) -> Result<Offers, AllocError> {
    let mut offers = Offers::none(alloc, limits)?;
    offers.offer_held(limits, columns)?;
    if let Some(plan) = leads.plan {
        offers.offer_plan(limits, plan)?;
    }
    offers.offer_found(leads.routes)?;
    Ok(offers)
}

// How many routes may be handed over: none where the prices prove `now`.
fn most_routes(proved: u32, now: u32, routes: u32) -> u32
    ensures few { result ≤ routes }
    ensures closed { now ≤ proved → result ≡ 0 }
{
    if proved >= now { 0 } else { routes }
}

/// Looks for few routes at which the run of a node's master comes to its optimum, and for prices near to it: by a revised
/// simplex method in fixed point (G. B. Dantzig, W. Orchard-Hays, The product form for the inverse in the simplex method,
/// 1954) with column generation, over the columns held, the best plan's routes and those of an ascent's last rounds. The
/// routes are those that are basic at the end, by falling weight. The prices prove at least what `start` proves; where they
/// prove `now`, no routes are handed over. That few routes are enough is not claimed. AllocError where there is no memory.
pub fn scout<C: Columns>(
    alloc: Global,
    limits: &Limits<'_>,
    columns: &C,
    leads: Leads<'_>,
    start: Prices,
    now: u32,
    effort: Effort,
) -> Result<Scouted, AllocError>
    requires prices { ArePricesOf limits.now.limits start }
    requires required { IsOnRequired limits.now.limits start }
    ensures prices { IfOk result (λ s. ArePricesOf limits.now.limits s.prices) }
    ensures required { IfOk result (λ s. IsOnRequired limits.now.limits s.prices) }
    ensures proved { IfOk result (λ s. IsProvedCount limits.now.limits s.prices s.proved) }
    ensures as_much { IfOk result (λ s. ProveAsMuch limits.now.limits s.prices start) }
    ensures fresh { IfOk result (λ s. AreFresh limits.now.limits
        (C.columns columns.now) s.routes.items) }
    ensures few { IfOk result (λ s. length s.routes.items ≤ effort.routes) }
    ensures closed { IfOk result (λ s. now ≤ s.proved → length s.routes.items ≡ 0) }
    ensures pivots { IfOk result (λ s. s.pivots ≤ effort.pivots) }
    ensures rounds { IfOk result (λ s. s.rounds ≤ effort.rounds) }
{
    less_is_proved();
    let first = ascend(alloc, limits, start, now, ONE_LOOK)?;
    let mut offers = offers_of(alloc, limits, columns, leads)?;
    let Searched {
        best,
        pivots,
        rounds,
    } = search(alloc, limits, &mut offers, first, now, effort)?;
    let most = most_routes(best.proved, now, effort.routes);
    let routes = hand_over(alloc, limits, columns, &offers, most)?;
    Ok(Scouted {
        prices: best.prices,
        proved: best.proved,
        routes,
        pivots,
        rounds,
    })
}
