// What minute prices bound: the demands of the tasks, a route of each team that earns the most, and the bound.
ghost use Rattle.std.specs.Prelude.{◌≡◌, ◌<◌, length, map, IfOk};
ghost use Rattle.std.specs.List.{range_with_len};
ghost use Rattle.crew_terms.specs.Leaf.{rewards};
ghost use Rattle.crew_terms.specs.Limits.{root_limits, teams_in, tasks_in};
ghost use Rattle.label_pricing.specs.Pricing.{HasRoom};
ghost use Rattle.squeeze_terms.specs.Bound.{AreMinuteWorths, IsMinuteBound};
ghost use Rattle.squeeze_terms.specs.MinutePrices.{AreMinutePrices, minute_price};
ghost use Rattle.squeeze_terms.specs.Possible.{possible_minutes};
ghost use Rattle.squeeze_terms.specs.Run.{AreBestRoutes, IsBestRoute, demand_minute};

use crate::traces::StepRoutes;
use crew_instance::Instance;
use label_pricing::{Pricer, Visits};
use minute_prices::{MinutePrices, PossibleMinutes, minute_bound, term_of};
use node_limits::Limits;
use std::alloc::{AllocError, Global};

/// The demands of all tasks.
pub(crate) fn find_demands(
    alloc: Global,
    instance: &Instance,
    possible: &PossibleMinutes,
    prices: &MinutePrices,
) -> Result<Vec<Option<u32>>, AllocError>
    requires possible { possible.now ≡ map (possible_minutes instance.now)
        (range_with_len 0 (length instance.now.tasks)) }
    requires prices { AreMinutePrices instance.now prices.now }
    ensures { IfOk result (λ minutes. minutes.items ≡ map (demand_minute instance.now prices.now)
        (range_with_len 0 (length instance.now.tasks))) }
{
    let mut minutes = Vec::with_capacity(alloc, instance.tasks())?;
    for j in 0..instance.tasks() as u32 {
        let found = term_of(instance, prices, possible.of_task(j), j);
        minutes.push(found.minute)?;
    }
    Ok(minutes)
}

/// The worth of a team, in 1/D of a task, and a route that earns it.
#[derive(Drop)]
struct BestRoute {
    worth: i64,
    route: Visits,
}

/// The worth of team `k`, and a route that earns it, which is empty where the worth is 0.
fn best_route(
    alloc: Global,
    limits: &Limits<'_>,
    k: u32,
    prices: &MinutePrices,
    pricer: &mut Pricer,
) -> Result<BestRoute, AllocError>
    requires team { k < teams_in limits.now.limits }
    requires prices { AreMinutePrices limits.now.limits.instance prices.now }
    requires room { HasRoom limits.now.limits.instance pricer.old }
    ensures best { IfOk result (λ found. IsBestRoute limits.now.limits k
        (minute_price limits.now.limits.instance prices.now) found.route) }
    ensures worth { IfOk result (λ found. rewards
        (minute_price limits.now.limits.instance prices.now) found.route ≡ found.worth) }
    ensures room { HasRoom limits.now.limits.instance pricer.new }
{
    let worth = pricer.price_rewards(limits, k, prices);
    if worth == 0 {
        let route = Visits::of(Vec::new(alloc));
        return Ok(BestRoute { worth, route });
    }
    let route = Visits::of(pricer.route().to_vec(alloc)?);
    Ok(BestRoute { worth, route })
}

/// The worths of all teams, in 1/D of a task, and routes that earn them.
#[derive(Drop)]
struct BestRoutes {
    worths: Vec<i64>,
    routes: Vec<Visits>,
}

/// The worths of all teams, and routes that earn them.
fn best_routes(
    alloc: Global,
    limits: &Limits<'_>,
    prices: &MinutePrices,
    pricer: &mut Pricer,
) -> Result<BestRoutes, AllocError>
    requires root { limits.now.limits ≡ root_limits limits.now.limits.instance }
    requires prices { AreMinutePrices limits.now.limits.instance prices.now }
    requires room { HasRoom limits.now.limits.instance pricer.old }
    ensures routes { IfOk result (λ found. AreBestRoutes limits.now.limits.instance prices.now
        found.routes.items) }
    ensures worths { IfOk result (λ found. AreMinuteWorths limits.now.limits.instance prices.now
        found.worths.items) }
    ensures room { HasRoom limits.now.limits.instance pricer.new }
{
    let teams = limits.instance().teams();
    let mut worths = Vec::with_capacity(alloc, teams)?;
    let mut routes = Vec::with_capacity(alloc, teams)?;
    for k in 0..teams as u32 {
        let found = best_route(alloc, limits, k, prices, pricer)?;
        worths.push(found.worth)?;
        routes.push(found.route)?;
    }
    Ok(BestRoutes { worths, routes })
}

/// The bound of minute prices, in 1/D of a task, the demands of the tasks, and a route of each team that earns the most.
#[derive(Drop)]
pub(crate) struct Evaluated {
    pub bound: i128,
    pub demands: Vec<Option<u32>>,
    pub routes: StepRoutes,
}

/// What the prices bound.
pub(crate) fn evaluate(
    alloc: Global,
    limits: &Limits<'_>,
    possible: &PossibleMinutes,
    prices: &MinutePrices,
    pricer: &mut Pricer,
) -> Result<Evaluated, AllocError>
    requires root { limits.now.limits ≡ root_limits limits.now.limits.instance }
    requires possible { possible.now ≡ map (possible_minutes limits.now.limits.instance)
        (range_with_len 0 (tasks_in limits.now.limits)) }
    requires prices { AreMinutePrices limits.now.limits.instance prices.now }
    requires room { HasRoom limits.now.limits.instance pricer.old }
    ensures bound { IfOk result (λ e. IsMinuteBound limits.now.limits.instance prices.now e.bound) }
    ensures demands { IfOk result (λ e. e.demands.items
        ≡ map (demand_minute limits.now.limits.instance prices.now)
        (range_with_len 0 (tasks_in limits.now.limits))) }
    ensures routes { IfOk result (λ e. AreBestRoutes limits.now.limits.instance prices.now
        e.routes) }
    ensures room { HasRoom limits.now.limits.instance pricer.new }
{
    let instance = limits.instance();
    let demands = find_demands(alloc, instance, possible, prices)?;
    let best = best_routes(alloc, limits, prices, pricer)?;
    Ok(Evaluated {
        bound: minute_bound(instance, possible, prices, &best.worths),
        demands,
        routes: StepRoutes::of(best.routes),
    })
}
