// One step of the search.
ghost use Rattle.std.specs.Prelude.{◌≡◌, ◌≤◌, ℕ, List, All, IfOk, IfSome};
ghost use Rattle.crew_terms.specs.Decided.{IsDecided};
ghost use Rattle.crew_terms.specs.Leaf.{IsOnRequired, Prices as NodePrices};
ghost use Rattle.crew_terms.specs.Limits.{Route, tasks_in};
ghost use Rattle.crew_terms.specs.Plan.{unassigned_count};
ghost use Rattle.master_run.specs.Along.{Halts};
ghost use Rattle.potentials.specs.Prices.{ArePricesOf};
ghost use Rattle.search_terms.specs.Choice.{IsValidChoice};
ghost use Rattle.search_terms.specs.Inside.{IsNode};
ghost use Rattle.search_terms.specs.Proven.{IsProvedCount, ProveAsMuch};
ghost use Rattle.search_terms.specs.Search.{Extends};
ghost use Rattle.node_solver.specs.Loose.{HasHeld, IsShown};
ghost use Rattle.node_solver.specs.Plans.{IsBestOf, IsBetterPlan, now_after};
ghost use Rattle.node_solver.specs.Steps.{Ends, KeepsProved, prices_of};
ghost use Rattle.split_uses.specs.Permitted.{IsPermittedSpan};

use crate::best_plan::{BestPlan, SHORT};
use crate::choosing::choice_of;
use crate::decided::{ClosedNode, close_node};
use crate::effort::Effort;
use crate::master::end_by_master;
use crate::rehearsed::{first_choice, rehearsed};
use crate::rising::rise;
use crate::seeds::{Known, scout_and_rebuild};
use crate::step::{NodeEnd, Step, Why};
use column_arena::Columns;
use crew_instance::{Plan, unassigned};
use crew_terms::Choice;
use master_run::Halt;
use node_limits::Limits;
use potentials::Prices;
use price_ascent::average_uses;
use search_laws::less_is_proved;
use split_uses::{Averages, average_spans};
use std::alloc::{AllocError, Global};
use tree_rehearsal::Script;

/// Splits the node because its master's run goes no further, unless the prices prove what the best plan leaves.
fn end_halted(
    alloc: Global,
    limits: &Limits<'_>,
    known: Known,
    now: u32,
    averages: &Averages,
    wanted: Option<Choice>,
    halt: Halt,
) -> Result<NodeEnd, AllocError>
    requires open { IsDecided limits.now.limits → ⊥ }
    requires count { IsProvedCount limits.now.limits known.prices known.proved }
    requires shape { ArePricesOf limits.now.limits known.prices }
    requires averages { All (IsPermittedSpan limits.now.limits) averages.now.spans.items }
    requires wanted { IfSome wanted (IsValidChoice limits.now.limits) }
    ensures ends { (pivots : ℕ) (columns : List Route)
        → Halts limits.now.limits pivots columns halt →
        IfOk result (Ends limits.now.limits now pivots columns) }
    ensures shape { IfOk result (λ e. ArePricesOf limits.now.limits (prices_of e)) }
    ensures required { IfOk result (λ e. IsOnRequired limits.now.limits (prices_of e)) }
    ensures shown { (columns : List Route) → IfOk result (IsShown limits.now.limits now columns) }
    ensures held { (columns : List Route) → IfOk result (HasHeld limits.now.limits columns) }
    ensures keeps { (start : NodePrices) → ProveAsMuch limits.now.limits known.prices start
        → IfOk result (KeepsProved limits.now.limits start) }
{
    less_is_proved();
    let why = match halt {
        Halt::OutOfMemory => return Err(AllocError),
        Halt::Overflow(fault) => Why::Overflow(fault),
        Halt::Spent => Why::Spent,
    };
    if known.proved >= now {
        return Ok(NodeEnd::Closed(known.prices));
    }
    let Averages { spans, whole } = averages;
    let choice = choice_of(alloc, limits, &known.prices, spans, *whole, wanted)?;
    Ok(NodeEnd::Split {
        choice,
        why,
        prices: known.prices,
    })
}

/// Ends a node that isn't decided: by an ascent of its prices, where these prove too little by what a scout finds, and by its
/// master over the columns to which the scout adds some.
fn end_open<C: Columns>(
    alloc: Global,
    limits: &Limits<'_>,
    start: Prices,
    given: &Plan,
    columns: &mut C,
    effort: &Effort,
    wanted: Option<Choice>,
    best: &mut BestPlan,
    script: &mut Option<Script>,
) -> Result<NodeEnd, AllocError>
    requires open { IsDecided limits.now.limits → ⊥ }
    requires most { best.old.unassigned ≤ tasks_in limits.now.limits }
    requires prices { ArePricesOf limits.now.limits start }
    requires required { IsOnRequired limits.now.limits start }
    requires wanted { IfSome wanted (IsValidChoice limits.now.limits) }
    ensures ends { IfOk result (Ends limits.now.limits best.new.unassigned effort.now.pivots
        (C.columns columns.new)) }
    ensures shape { IfOk result (λ e. ArePricesOf limits.now.limits (prices_of e)) }
    ensures required { IfOk result (λ e. IsOnRequired limits.now.limits (prices_of e)) }
    ensures shown { IfOk result (IsShown limits.now.limits best.new.unassigned
        (C.columns columns.new)) }
    ensures held { IfOk result (HasHeld limits.now.limits (C.columns columns.new)) }
    ensures keeps { IfOk result (KeepsProved limits.now.limits start) }
    ensures best { (b : ℕ) → IsBestOf limits.now.limits.instance b best.old
        → IsBestOf limits.now.limits.instance b best.new }
    ensures extends { Extends limits.now.limits (C.columns columns.old) (C.columns columns.new) }
{
    less_is_proved();
    let found = rise(alloc, limits, start, effort, best)?;
    let uses = average_uses(alloc, &found.routes, found.rounds)?;
    best.try_uses(alloc, limits.instance(), &uses, SHORT)?;
    if found.proved >= best.unassigned {
        return Ok(NodeEnd::Closed(found.prices));
    }
    let averages = average_spans(alloc, limits, &found)?;
    let known = scout_and_rebuild(alloc, limits, found, &uses, given, columns, effort, best)?;
    if known.proved >= best.unassigned {
        return Ok(NodeEnd::Closed(known.prices));
    }
    let now = best.unassigned;
    let plan = best.or(given);
    *script = rehearsed(alloc, limits, columns, plan, &known, now, effort.rehearsal)?;
    let wanted = first_choice(limits, script, wanted);
    match end_by_master(alloc, limits, columns, effort.pivots, wanted, best) {
        Ok(end) => Ok(end),
        Err(halt) => end_halted(
            alloc,
            limits,
            known,
            best.unassigned,
            &averages,
            wanted,
            halt,
        ),
    }
}

/// One step of branch and price (C. Barnhart et al., Branch-and-price: column generation for solving huge integer
/// programs, 1998) at one node, where `best` is the search's best plan: the node is closed by prices that prove that no plan
/// in it is better, or it is split, for a cause that the columns held earn, by the wanted choice where there is one.
///
/// A decided node is closed by what is required in it. Else the prices with which it begins are bettered by an ascent, and
/// where they prove too little by a scout, which adds few routes to the columns. Then the node's master runs over the columns
/// that are routes in it, and goes on by the routes that earn more at its prices. What is found on the way may give a better
/// plan, and then that is what is to be proved. Where the effort has programs for it, the tree is rehearsed from the node on,
/// which is then the root, and its first choice is the wanted one. A split that is loose shows shares of the columns that leave hardly more than
/// what would be better, and prices near to what these are worth. The columns only grow, also where memory runs out.
pub fn process<C: Columns>(
    alloc: Global,
    limits: &Limits<'_>,
    start: Prices,
    best: &Plan,
    columns: &mut C,
    effort: &Effort,
    wanted: Option<Choice>,
) -> Result<Step, AllocError>
    requires node { IsNode limits.now.limits }
    requires best { unassigned_count best.now ≤ tasks_in limits.now.limits }
    requires prices { ArePricesOf limits.now.limits start }
    requires required { IsOnRequired limits.now.limits start }
    requires wanted { IfSome wanted (IsValidChoice limits.now.limits) }
    ensures plan { IfOk result (λ s. IfSome s.plan
        (IsBetterPlan limits.now.limits.instance (unassigned_count best.now))) }
    ensures ends { IfOk result (λ s. Ends limits.now.limits
        (now_after (unassigned_count best.now) s.plan) effort.now.pivots
        (C.columns columns.new) s.end) }
    ensures shown { IfOk result (λ s. IsShown limits.now.limits
        (now_after (unassigned_count best.now) s.plan)
        (C.columns columns.new) s.end) }
    ensures held { IfOk result (λ s. HasHeld limits.now.limits (C.columns columns.new) s.end) }
    ensures shape { IfOk result (λ s. ArePricesOf limits.now.limits (prices_of s.end)) }
    ensures required { IfOk result (λ s. IsOnRequired limits.now.limits (prices_of s.end)) }
    ensures as_much { IfOk result (λ s. KeepsProved limits.now.limits start s.end) }
    ensures extends { Extends limits.now.limits (C.columns columns.old) (C.columns columns.new) }
{
    let now = unassigned(best);
    if limits.decided() {
        let ClosedNode { plan, prices } = close_node(alloc, limits, now)?;
        return Ok(Step {
            plan,
            end: NodeEnd::Closed(prices),
            script: None,
        });
    }
    let mut found = BestPlan::none(now);
    let mut script = None;
    let end = end_open(
        alloc,
        limits,
        start,
        best,
        columns,
        effort,
        wanted,
        &mut found,
        &mut script,
    )?;
    Ok(Step {
        plan: found.plan,
        end,
        script,
    })
}
