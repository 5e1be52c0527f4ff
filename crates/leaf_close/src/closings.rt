// How a decided node is closed.
ghost use Rattle.std.specs.Prelude.{◌≤◌, IfOk};
ghost use Rattle.std.specs.Option.{SomeIff};
ghost use Rattle.crew_terms.specs.Limits.{tasks_in};
ghost use Rattle.crew_terms.specs.Decided.{IsDecided};
ghost use Rattle.search_terms.specs.Closing.{HasNoPlan, HasOnePlan, required_plan as plan_required};
ghost use Rattle.search_terms.specs.Inside.{IsNode};
ghost use Rattle.potentials.specs.Prices.{ArePricesOf};
ghost use Rattle.leaf_close.specs.Cases.{AreClosingPrices, HasFault, HasNoFault};
ghost use Rattle.leaf_close.specs.Closings.{IsBetter, IsClosed, plan_of, closing_prices};

use crate::faults::first_fault;
use crate::plans::required_plan;
use crate::prices::{fault_prices, open_prices};
use node_limits::Limits;
use plan_check::{Plan, unassigned};
use potentials::Prices;
use search_laws::{decided_cases, less_is_proved};
use std::alloc::{AllocError, Global};

/// What closes a decided node.
#[derive(Drop)]
pub enum Closing {
    /// The prices prove in the node what the best plan so far leaves unassigned.
    Prices(Prices),
    /// The one legal plan of the node is better than the best so far, and the prices prove what it leaves unassigned.
    Plan(Plan, Prices),
}

/// Closes a decided node, where the best plan so far leaves `best` tasks unassigned. The prices are those of the first of
/// four cases that holds, all others are 0; `cost` is what all tasks together cost.
///
/// - A team can't do all that is required of it, the lowest such team: `cost` on each of its required pairs.
/// - A task has more required teams than it needs, the lowest such task: less `cost` on the task, and `cost` on each of
///   its required pairs.
/// - A task has required teams, but fewer than it needs, the lowest such task: `cost` on the task.
/// - Else the required pairs are the one legal plan of the node. What makes one task is shared among the teams that a
///   task needs, on each task without a required pair.
///
/// In the first three cases no legal plan is in the node, and the prices prove every number of tasks. In the fourth they
/// prove what the one plan leaves unassigned, and it is handed out where that is fewer than `best`.
pub fn close_decided(alloc: Global, limits: &Limits<'_>, best: u32) -> Result<Closing, AllocError>
    requires node { IsNode limits.now.limits }
    requires decided { IsDecided limits.now.limits }
    requires best { best ≤ tasks_in limits.now.limits }
    ensures prices { IfOk result (λ c. AreClosingPrices limits.now.limits (closing_prices c)) }
    ensures no_plan { IfOk result (λ c. HasFault limits.now.limits →
        HasNoPlan limits.now.limits (closing_prices c)) }
    ensures one_plan { IfOk result (λ c. HasNoFault limits.now.limits →
        HasOnePlan limits.now.limits (closing_prices c) (plan_required limits.now.limits)) }
    ensures plan { IfOk result (λ c.
        SomeIff (plan_of c) (IsBetter limits.now.limits best) (plan_required limits.now.limits)) }
    ensures closed { IfOk result (IsClosed limits.now.limits best) }
    ensures shape { IfOk result (λ c. ArePricesOf limits.now.limits (closing_prices c)) }
{
    decided_cases();
    less_is_proved();
    // It is known from here on that these are limits over an instance.
    let _ = limits.instance();
    let plan = required_plan(alloc, limits)?;
    if let Some(fault) = first_fault(limits, &plan) {
        let prices = fault_prices(alloc, limits, fault)?;
        return Ok(Closing::Prices(prices));
    }
    let prices = open_prices(alloc, limits)?;
    if unassigned(&plan) < best {
        Ok(Closing::Plan(plan, prices))
    } else {
        Ok(Closing::Prices(prices))
    }
}
