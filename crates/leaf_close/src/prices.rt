// The prices that close a decided node.
ghost use Rattle.std.specs.Prelude.{◌≡◌, ◌<◌, neg_ℤ, pos, IfOk};
ghost use Rattle.crew_terms.specs.Leaf.{AreInRange, IsPrice};
ghost use Rattle.crew_terms.specs.Limits.{tasks_in, teams_in};
ghost use Rattle.search_terms.specs.Closing.{CrowdedPrices, OpenPrices, ShortPrices, StuckPrices, all_cost};
ghost use Rattle.potentials.specs.Prices.{ArePricesOf};
ghost use Rattle.leaf_close.specs.Faults.{AreFaultPrices, IsFirstNodeFault};

use crate::faults::Fault;
use crew_terms::D;
use node_limits::{Limits, is_required};
use potentials::Prices;
use std::alloc::{AllocError, Global};

/// What all tasks together cost.
fn cost_of_all(limits: &Limits<'_>) -> i64
    ensures cost { result ≡ pos (all_cost limits.now.limits) }
    ensures price { IsPrice result }
    ensures less { IsPrice (neg_ℤ result) }
{
    let tasks = limits.instance().tasks() as u32;
    i64::from(tasks) * i64::from(D)
}

/// The prices that tell that team `k` can't do all that is required of it: the cost of all tasks on each of its required
/// pairs.
fn stuck_prices(alloc: Global, limits: &Limits<'_>, k: u32) -> Result<Prices, AllocError>
    requires { k < teams_in limits.now.limits }
    ensures prices { IfOk result (StuckPrices limits.now.limits k) }
    ensures range { IfOk result AreInRange }
    ensures shape { IfOk result (ArePricesOf limits.now.limits) }
{
    let cost = cost_of_all(limits);
    let mut prices = Prices::zero(alloc, limits)?;
    for j in 0..limits.instance().tasks() as u32 {
        if is_required(limits.pair(k, j)) {
            prices.set_rho(k, j, cost);
        }
    }
    Ok(prices)
}

/// The prices that tell that task `j` has more required teams than it needs: less the cost of all tasks on the task, and
/// that cost on each of its required pairs.
fn crowded_prices(alloc: Global, limits: &Limits<'_>, j: u32) -> Result<Prices, AllocError>
    requires { j < tasks_in limits.now.limits }
    ensures prices { IfOk result (CrowdedPrices limits.now.limits j) }
    ensures range { IfOk result AreInRange }
    ensures shape { IfOk result (ArePricesOf limits.now.limits) }
{
    let cost = cost_of_all(limits);
    let mut prices = Prices::zero(alloc, limits)?;
    prices.set_pi(j, -cost);
    for k in 0..limits.instance().teams() as u32 {
        if is_required(limits.pair(k, j)) {
            prices.set_rho(k, j, cost);
        }
    }
    Ok(prices)
}

/// The prices that tell that task `j` has required teams, but fewer than it needs: the cost of all tasks on the task.
fn short_prices(alloc: Global, limits: &Limits<'_>, j: u32) -> Result<Prices, AllocError>
    requires { j < tasks_in limits.now.limits }
    ensures prices { IfOk result (ShortPrices limits.now.limits j) }
    ensures range { IfOk result AreInRange }
    ensures shape { IfOk result (ArePricesOf limits.now.limits) }
{
    let cost = cost_of_all(limits);
    let mut prices = Prices::zero(alloc, limits)?;
    prices.set_pi(j, cost);
    Ok(prices)
}

/// The prices that tell a fault of the node; all others are 0.
pub(crate) fn fault_prices(
    alloc: Global,
    limits: &Limits<'_>,
    fault: Fault,
) -> Result<Prices, AllocError>
    requires { IsFirstNodeFault limits.now.limits fault }
    ensures prices { IfOk result (AreFaultPrices limits.now.limits fault) }
    ensures range { IfOk result AreInRange }
    ensures shape { IfOk result (ArePricesOf limits.now.limits) }
{
    match fault {
        Fault::Stuck(k) => stuck_prices(alloc, limits, k),
        Fault::Crowded(j) => crowded_prices(alloc, limits, j),
        Fault::Short(j) => short_prices(alloc, limits, j),
    }
}

/// The prices of a node in which each task that has required teams has all of them: what makes one task for all its
/// teams, on each task that has none.
pub(crate) fn open_prices(alloc: Global, limits: &Limits<'_>) -> Result<Prices, AllocError>
    ensures prices { IfOk result (OpenPrices limits.now.limits) }
    ensures range { IfOk result AreInRange }
    ensures shape { IfOk result (ArePricesOf limits.now.limits) }
{
    let instance = limits.instance();
    let mut prices = Prices::zero(alloc, limits)?;
    for j in 0..instance.tasks() as u32 {
        if limits.required(j) == 0 {
            prices.set_pi(j, i64::from(D / instance.task(j).teams));
        }
    }
    Ok(prices)
}
