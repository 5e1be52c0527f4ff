// Prices of a node that rise, and a better plan where they prove too little.
ghost use Rattle.std.specs.Prelude.{◌≤◌, ℕ, All, IfOk};
ghost use Rattle.crew_terms.specs.Leaf.{IsOnRequired};
ghost use Rattle.node_solver.specs.Plans.{IsBestOf};
ghost use Rattle.potentials.specs.Prices.{ArePricesOf};
ghost use Rattle.price_ascent.specs.Found.{IsFound};
ghost use Rattle.search_terms.specs.Proven.{IsProvedCount, ProveAsMuch};

use crate::best_plan::BestPlan;
use crate::effort::Effort;
use node_limits::Limits;
use plan_ruin::Effort as RuinEffort;
use potentials::Prices;
use price_ascent::{Ascended, ascend, average_uses};
use std::alloc::{AllocError, Global};

// Searches for a better plan, from the one that the routes of an ascent suggest, until it leaves what its prices prove.
fn search_plan(
    alloc: Global,
    limits: &Limits<'_>,
    found: &Ascended,
    effort: RuinEffort,
    best: &mut BestPlan,
) -> Result<(), AllocError>
    ensures best { (b : ℕ) → IsBestOf limits.now.limits.instance b best.old
        → IsBestOf limits.now.limits.instance b best.new }
    ensures fewer { best.new.unassigned ≤ best.old.unassigned }
{
    let instance = limits.instance();
    let uses = average_uses(alloc, &found.routes, found.rounds)?;
    best.rebuild_uses(alloc, instance, &uses, found.proved, effort)
}

/// An ascent of the node's prices. Where these prove too little and the effort has looks for it, a better plan is searched
/// for, and another ascent follows.
pub(crate) fn rise(
    alloc: Global,
    limits: &Limits<'_>,
    start: Prices,
    effort: &Effort,
    best: &mut BestPlan,
) -> Result<Ascended, AllocError>
    requires prices { ArePricesOf limits.now.limits start }
    requires required { IsOnRequired limits.now.limits start }
    ensures prices { IfOk result (λ a. ArePricesOf limits.now.limits a.prices) }
    ensures required { IfOk result (λ a. IsOnRequired limits.now.limits a.prices) }
    ensures proved { IfOk result (λ a. IsProvedCount limits.now.limits a.prices a.proved) }
    ensures as_much { IfOk result (λ a. ProveAsMuch limits.now.limits a.prices start) }
    ensures routes { IfOk result (λ a. All (IsFound limits.now.limits) a.routes.items) }
    ensures best { (b : ℕ) → IsBestOf limits.now.limits.instance b best.old
        → IsBestOf limits.now.limits.instance b best.new }
    ensures fewer { best.new.unassigned ≤ best.old.unassigned }
{
    let first = ascend(alloc, limits, start, best.unassigned, effort.ascent)?;
    if first.proved >= best.unassigned || effort.rebuild.looks == 0 {
        return Ok(first);
    }
    search_plan(alloc, limits, &first, effort.rebuild, best)?;
    ascend(alloc, limits, first.prices, best.unassigned, effort.again)
}
