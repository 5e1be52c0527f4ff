// Prices of a node, and what is asked of pricing.
ghost use Rattle.std.specs.Prelude.{◌<◌, IfOk};
ghost use Rattle.crew_terms.specs.Leaf.{IsOnRequired, IsPrice};
ghost use Rattle.crew_terms.specs.Limits.{tasks_in, teams_in};
ghost use Rattle.potentials.specs.Prices.{ArePricesOf};
ghost use Rattle.potentials.specs.Table.{IsTableOf};

use crew_instance::Instance;
use crew_terms::Pair;
use label_pricing::{Visit, price_team};
use node_limits::Limits;
use potentials::{Prices, Room, Table, holds_locally};
use route_check::{RouteVerdict, check_route};
use std::alloc::{Alloc, AllocError, Global};
use std::process::Abort;
use std::test::Fail;

/// What is paid in a node: for visits the tasks' prices by their numbers, and for each that is required so much more.
#[derive(Clone, Copy)]
pub struct Offer<'a> {
    pub list: &'a [i64],
    pub extra: i64,
}

// The nearest price of at most two tasks and a half either way.
fn nearest(v: i64) -> i64
    ensures { IsPrice result }
{
    v.max(-2_100_000_000).min(2_100_000_000)
}

// A price in 1/D of a task, of at most two tasks and a half either way.
fn price_of(list: &[i64], j: u32) -> i64
    ensures { IsPrice result }
{
    match list.get(j as usize) {
        Some(price) => nearest(*price),
        None => nearest(0),
    }
}

// Whether the node requires the pair.
fn is_required(limits: &Limits<'_>, k: u32, j: u32) -> bool {
    let instance = limits.instance();
    (k as usize) < instance.teams()
        && (j as usize) < instance.tasks()
        && limits.pair(k, j) == Pair::Required
}

/// What a visit of team `k` to task `j` earns.
pub fn earned(limits: &Limits<'_>, offer: Offer<'_>, k: u32, j: u32) -> i64 {
    let price = price_of(offer.list, j);
    if is_required(limits, k, j) {
        price.saturating_add(nearest(offer.extra))
    } else {
        price
    }
}

/// What the visits of team `k` earn.
pub fn sum_of(limits: &Limits<'_>, offer: Offer<'_>, k: u32, route: &[Visit]) -> i64 {
    let mut sum = 0i64;
    for visit in route {
        sum = sum.saturating_add(earned(limits, offer, k, visit.task));
    }
    sum
}

/// The tasks' prices by their numbers, and 0 where the list ends.
pub fn prices_of(alloc: Global, limits: &Limits<'_>, list: &[i64]) -> Result<Prices, AllocError>
    ensures prices { IfOk result (ArePricesOf limits.now.limits) }
    ensures required { IfOk result (IsOnRequired limits.now.limits) }
{
    let mut prices = Prices::zero(alloc, limits)?;
    for j in 0..limits.instance().tasks() as u32 {
        prices.set_pi(j, price_of(list, j));
    }
    Ok(prices)
}

// Sets the price of a pair, if the node requires it.
fn set_extra(limits: &Limits<'_>, k: u32, j: u32, extra: i64, prices: &mut Prices)
    requires team { k < teams_in limits.now.limits }
    requires task { j < tasks_in limits.now.limits }
    requires prices { ArePricesOf limits.now.limits prices.old }
    ensures { ArePricesOf limits.now.limits prices.new }
{
    if is_required(limits, k, j) {
        prices.set_rho(k, j, nearest(extra));
    }
}

// Sets the prices of the pairs of team `k` that the node requires.
fn set_extras(limits: &Limits<'_>, k: u32, extra: i64, prices: &mut Prices)
    requires team { k < teams_in limits.now.limits }
    requires prices { ArePricesOf limits.now.limits prices.old }
    ensures { ArePricesOf limits.now.limits prices.new }
{
    for j in 0..limits.instance().tasks() as u32 {
        set_extra(limits, k, j, extra, prices);
    }
}

/// The prices of what is paid in the node.
pub fn offered(alloc: Global, limits: &Limits<'_>, offer: Offer<'_>) -> Result<Prices, AllocError>
    ensures { IfOk result (ArePricesOf limits.now.limits) }
{
    let mut prices = prices_of(alloc, limits, offer.list)?;
    for k in 0..limits.instance().teams() as u32 {
        set_extras(limits, k, offer.extra, &mut prices);
    }
    Ok(prices)
}

/// Team `k` at what is paid: its worth and its route, after it was seen that the route is one of the team, that it earns
/// the worth, and that the potentials hold.
pub fn priced(
    rt: &(impl Abort + Alloc<A = Global>),
    limits: &Limits<'_>,
    k: u32,
    offer: Offer<'_>,
) -> Result<(i64, Vec<Visit>), Fail>
    requires { k < teams_in limits.now.limits }
{
    let prices = offered(rt.alloc(), limits, offer)?;
    let mut table = Table::reserve(rt.alloc(), limits.instance())?;
    let mut room = Room::reserve(rt.alloc(), limits.instance())?;
    let found = price_team(rt.alloc(), limits, k, &prices, &mut table)?;
    assert!(rt; holds_locally(limits, k, &prices, &table, &mut room, found.worth));
    let route = found.route.as_slice();
    assert!(rt; check_route(limits, k, route) == RouteVerdict::Legal);
    assert!(rt; sum_of(limits, offer, k, route) == found.worth);
    let visits = Vec::from_slice(rt.alloc(), route)?;
    Ok((found.worth, visits))
}

// What the table has for the visit; None where it has none.
fn potential(instance: &Instance, table: &Table, at: Visit) -> Option<i64>
    requires { IsTableOf instance.now table.now }
{
    if at.task as usize >= instance.tasks() {
        return None;
    }
    let task = instance.task(at.task);
    if at.start < task.earliest || task.latest < at.start {
        return None;
    }
    Some(table.get(at.task, at.start))
}

/// The potentials of team `k` at these prices and visits.
pub fn potentials_at(
    alloc: Global,
    limits: &Limits<'_>,
    k: u32,
    list: &[i64],
    visits: &[Visit],
) -> Result<Vec<Option<i64>>, Fail>
    requires { k < teams_in limits.now.limits }
{
    let prices = prices_of(alloc, limits, list)?;
    let mut table = Table::reserve(alloc, limits.instance())?;
    let _found = price_team(alloc, limits, k, &prices, &mut table)?;
    let mut told = Vec::new(alloc);
    for visit in visits {
        told.push(potential(limits.instance(), &table, *visit))?;
    }
    Ok(told)
}

/// The potentials of the first task at these minutes, once those from minute `from` to `to` are 7 and all others 0.
pub fn filled(
    alloc: Global,
    instance: &Instance,
    from: u32,
    to: u32,
    minutes: &[u32],
) -> Result<Vec<Option<i64>>, AllocError> {
    let mut table = Table::reserve(alloc, instance)?;
    if instance.tasks() > 0 {
        let task = instance.task(0);
        if task.earliest <= from && from <= to && to <= task.latest {
            table.fill(0, from, to, 7);
        }
    }
    let mut told = Vec::new(alloc);
    for minute in minutes {
        let at = Visit {
            task: 0,
            start: *minute,
        };
        told.push(potential(instance, &table, at))?;
    }
    Ok(told)
}
