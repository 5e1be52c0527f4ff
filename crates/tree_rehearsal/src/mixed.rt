// Prices between the best ones and those of the duals.
ghost use Rattle.std.specs.Prelude.{◌≡◌, ◌<◌, ◌↔◌, IfOk, IsTrue};
ghost use Rattle.crew_terms.specs.Leaf.{IsOnRequired, IsPrice};
ghost use Rattle.crew_terms.specs.Limits.{pair_of, tasks_in, teams_in};
ghost use Rattle.crew_terms.specs.declared.Pair.TheVariants.{Required};
ghost use Rattle.potentials.specs.Prices.{ArePricesOf};

use crate::numbers::{WHOLE, nearest, wide};
use crate::program::dual;
use crate::rows::{RequiredPair, Rows};
use crew_terms::{D, MOST_PRICE, Pair};
use node_limits::Limits;
use potentials::Prices;
use std::alloc::{AllocError, Global};

/// So many parts make one whole of a mix.
const PARTS: i128 = 256;

// The price, in 1/D of a task, that a dual is.
fn price_of(dual: i64) -> i64 {
    nearest(wide(dual, D as i64) / WHOLE)
}

// The price in the price limits that is nearest.
pub(crate) fn as_price(v: i64) -> i64
    ensures { IsPrice result }
{
    v.max(-(MOST_PRICE as i64)).min(MOST_PRICE as i64)
}

// So many parts of the best price, the others of the dual's.
fn mixed(best: i64, dual: i64, share: u32) -> i64
    ensures { IsPrice result }
{
    let of_best = i128::from(best).saturating_mul(i128::from(share));
    let rest = PARTS.saturating_sub(i128::from(share));
    let of_dual = i128::from(price_of(dual)).saturating_mul(rest);
    as_price(nearest(of_best.saturating_add(of_dual) / PARTS))
}

// Sets the prices of the tasks.
fn mix_tasks(
    limits: &Limits<'_>,
    rows: &Rows,
    best: &Prices,
    duals: &[i64],
    share: u32,
    prices: &mut Prices,
)
    requires best { ArePricesOf limits.now.limits best.now }
    requires prices { ArePricesOf limits.now.limits prices.old }
    requires required { IsOnRequired limits.now.limits prices.old }
    ensures prices { ArePricesOf limits.now.limits prices.new }
    ensures required { IsOnRequired limits.now.limits prices.new }
{
    for task in 0..limits.instance().tasks() as u32 {
        let dual = dual(duals, rows.of_task(task));
        prices.set_pi(task, mixed(best.pi(task), dual, share));
    }
}

// Sets the price of a pair, if the node requires it.
fn mix_pair(
    limits: &Limits<'_>,
    pair: RequiredPair,
    best: &Prices,
    dual: i64,
    share: u32,
    prices: &mut Prices,
)
    requires best { ArePricesOf limits.now.limits best.now }
    requires prices { ArePricesOf limits.now.limits prices.old }
    requires required { IsOnRequired limits.now.limits prices.old }
    ensures prices { ArePricesOf limits.now.limits prices.new }
    ensures required { IsOnRequired limits.now.limits prices.new }
{
    let RequiredPair { team, task } = pair;
    let instance = limits.instance();
    if (team as usize) < instance.teams()
        && (task as usize) < instance.tasks()
        && is_required(limits, team, task)
    {
        prices.set_rho(team, task, mixed(best.rho(team, task), dual, share));
    }
}

// Whether the node requires the pair.
pub(crate) fn is_required(limits: &Limits<'_>, team: u32, task: u32) -> bool
    requires team { team < teams_in limits.now.limits }
    requires task { task < tasks_in limits.now.limits }
    ensures { IsTrue result ↔ (pair_of limits.now.limits team task ≡ Required) }
{
    match limits.pair(team, task) {
        Pair::Required => true,
        Pair::Free | Pair::Forbidden => false,
    }
}

/// Prices of which so many parts are the best ones, and the others those of the duals; AllocError where there is no
/// memory.
pub(crate) fn mix(
    alloc: Global,
    limits: &Limits<'_>,
    rows: &Rows,
    best: &Prices,
    duals: &[i64],
    share: u32,
) -> Result<Prices, AllocError>
    requires best { ArePricesOf limits.now.limits best.now }
    ensures prices { IfOk result (ArePricesOf limits.now.limits) }
    ensures required { IfOk result (IsOnRequired limits.now.limits) }
{
    let mut prices = Prices::zero(alloc, limits)?;
    mix_tasks(limits, rows, best, duals, share, &mut prices);
    for at in 0..rows.pairs.len() {
        let dual = dual(duals, rows.of_pair(at));
        mix_pair(limits, rows.pairs[at], best, dual, share, &mut prices);
    }
    Ok(prices)
}
