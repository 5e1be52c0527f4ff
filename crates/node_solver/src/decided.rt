// A decided node.
ghost use Rattle.std.specs.Prelude.{◌≤◌, IfOk, IfSome};
ghost use Rattle.crew_terms.specs.Decided.{IsDecided};
ghost use Rattle.crew_terms.specs.Leaf.{IsOnRequired};
ghost use Rattle.crew_terms.specs.Limits.{tasks_in};
ghost use Rattle.potentials.specs.Prices.{ArePricesOf};
ghost use Rattle.search_terms.specs.Inside.{IsNode};
ghost use Rattle.search_terms.specs.Proven.{PricesProve};
ghost use Rattle.node_solver.specs.Plans.{IsBetterPlan, now_after};

use crew_instance::Plan;
use leaf_close::{Closing, close_decided};
use node_limits::Limits;
use plan_builder::pack;
use potentials::Prices;
use search_laws::less_is_proved;
use std::alloc::{AllocError, Global};

/// A plan that is better, if there is one, and the prices that close the node.
#[derive(Drop)]
pub(crate) struct ClosedNode {
    pub(crate) plan: Option<Plan>,
    pub(crate) prices: Prices,
}

/// Closes a decided node; its plan is packed.
pub(crate) fn close_node(
    alloc: Global,
    limits: &Limits<'_>,
    best: u32,
) -> Result<ClosedNode, AllocError>
    requires node { IsNode limits.now.limits }
    requires decided { IsDecided limits.now.limits }
    requires best { best ≤ tasks_in limits.now.limits }
    ensures plan { IfOk result (λ c. IfSome c.plan (IsBetterPlan limits.now.limits.instance best)) }
    ensures proved { IfOk result (λ c. PricesProve limits.now.limits c.prices
        (now_after best c.plan)) }
    ensures shape { IfOk result (λ c. ArePricesOf limits.now.limits c.prices) }
    ensures required { IfOk result (λ c. IsOnRequired limits.now.limits c.prices) }
{
    less_is_proved();
    match close_decided(alloc, limits, best)? {
        Closing::Prices(prices) => Ok(ClosedNode { plan: None, prices }),
        Closing::Plan(plan, prices) => {
            let plan = pack(alloc, limits.instance(), &plan)?;
            Ok(ClosedNode {
                plan: Some(plan),
                prices,
            })
        }
    }
}
