// The prices of one team, read and put.
ghost use Rattle.std.specs.Prelude.{◌≡◌, ◌≤◌, ◌<◌, ◌^◌, [], ℕ, length, map, pos, slice_index_or, IfOk};
ghost use Rattle.std.specs.List.{range_with_len};
ghost use Rattle.std.specs.Bool.{OnTrue};
ghost use Rattle.crew_terms.specs.Leaf.{IsPrice, pi_of, rho_of};
ghost use Rattle.crew_terms.specs.Limits.{tasks_in, teams_in};
ghost use Rattle.potentials.specs.Prices.{ArePricesOf};
ghost use Rattle.kept_prices.specs.Rows.{IsRowFor, whole_row, with_row};

use node_limits::Limits;
use potentials::Prices;
use std::alloc::{AllocError, Global};

/// Whether the team has no price of its own.
fn is_idle(limits: &Limits<'_>, prices: &Prices, k: u32) -> bool
    requires team { k < teams_in limits.now.limits }
    requires prices { ArePricesOf limits.now.limits prices.now }
    ensures { OnTrue result ((j : ℕ) → j < tasks_in limits.now.limits
        → rho_of prices.now k j ≡ pos 0) }
{
    for j in 0..limits.instance().tasks() as u32 {
        if prices.rho(k, j) != 0 {
            return false;
        }
    }
    true
}

/// The price of each task for the team.
fn team_prices(alloc: Global, prices: &Prices, k: u32, tasks: u32) -> Result<Vec<i64>, AllocError>
    requires team { k < length prices.now.rho }
    requires tasks { tasks ≤ length prices.now.pi }
    ensures { IfOk result (λ row. row.items
        ≡ map (λ j. rho_of prices.now k j) (range_with_len 0 tasks)) }
{
    (0..tasks).map(|j| prices.rho(k, j)).collect(alloc)
}

/// The price of each task.
fn task_prices(alloc: Global, prices: &Prices, tasks: u32) -> Result<Vec<i64>, AllocError>
    requires { tasks ≤ length prices.now.pi }
    ensures { IfOk result (λ row. row.items
        ≡ map (λ j. pi_of prices.now j) (range_with_len 0 tasks)) }
{
    (0..tasks).map(|j| prices.pi(j)).collect(alloc)
}

/// The prices of the team; nothing where it has none of its own.
pub(crate) fn row_of(
    alloc: Global,
    limits: &Limits<'_>,
    prices: &Prices,
    k: u32,
) -> Result<Vec<i64>, AllocError>
    requires team { k < teams_in limits.now.limits }
    requires prices { ArePricesOf limits.now.limits prices.now }
    ensures row { IfOk result (λ row. whole_row (tasks_in limits.now.limits) row.items
        ≡ slice_index_or prices.now.rho k []) }
    ensures count { IfOk result (λ row. IsRowFor (tasks_in limits.now.limits) row.items) }
    ensures range { IfOk result (λ row. (j : ℕ) → IsPrice (slice_index_or row.items j (pos 0))) }
{
    // Each team has as many prices as there are tasks, all in their range.
    let _ = prices.tasks();
    if is_idle(limits, prices, k) {
        return Ok(Vec::new(alloc));
    }
    team_prices(alloc, prices, k, limits.instance().tasks() as u32)
}

/// The prices of the tasks.
pub(crate) fn tasks_of(
    alloc: Global,
    limits: &Limits<'_>,
    prices: &Prices,
) -> Result<Vec<i64>, AllocError>
    requires { ArePricesOf limits.now.limits prices.now }
    ensures { IfOk result (λ tasks. tasks.items ≡ prices.now.pi) }
{
    task_prices(alloc, prices, limits.instance().tasks() as u32)
}

/// Puts the prices of the tasks in the place of others.
pub(crate) fn put_tasks(prices: &mut Prices, tasks: &[i64])
    requires count { length tasks.now ≡ length prices.old.pi }
    requires few { length tasks.now < 2 ^ 32 }
    requires range { (j : ℕ) → IsPrice (slice_index_or tasks.now j (pos 0)) }
    ensures { prices.new ≡ record prices.old { pi = tasks.now } }
{
    for j in 0..tasks.len() as u32 {
        prices.set_pi(j, tasks[j as usize]);
    }
}

/// The price of the task in the row; 0 where the row is left out.
fn price_in(row: &[i64], j: u32) -> i64
    ensures { result ≡ slice_index_or row.now j (pos 0) }
{
    row.get(j as usize).copied().unwrap_or(0)
}

/// Puts the prices of a team in the place of others: zeros where the row is left out.
pub(crate) fn put_row(prices: &mut Prices, k: u32, row: &[i64])
    requires team { k < length prices.old.rho }
    requires row { IsRowFor (length prices.old.pi) row.now }
    requires few { length prices.old.pi < 2 ^ 32 }
    requires range { (j : ℕ) → IsPrice (slice_index_or row.now j (pos 0)) }
    ensures { prices.new ≡ with_row prices.old k (whole_row (length prices.old.pi) row.now) }
{
    for j in 0..prices.tasks() as u32 {
        prices.set_rho(k, j, price_in(row, j));
    }
}
