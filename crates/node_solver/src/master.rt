// The end of a node by its master.
ghost use Rattle.std.specs.Prelude.{◌≡◌, ◌≤◌, ℕ, IfErr, IfOk, IfSome};
ghost use Rattle.crew_terms.specs.Decided.{IsDecided};
ghost use Rattle.crew_terms.specs.Leaf.{IsOnRequired, Prices as NodePrices};
ghost use Rattle.crew_terms.specs.Limits.{tasks_in};
ghost use Rattle.master_run.specs.Along.{Halts};
ghost use Rattle.potentials.specs.Prices.{ArePricesOf};
ghost use Rattle.search_terms.specs.Choice.{IsValidChoice};
ghost use Rattle.search_terms.specs.Proven.{IsProvedCount};
ghost use Rattle.search_terms.specs.Search.{Extends};
ghost use Rattle.node_solver.specs.Loose.{HasHeld, IsShown};
ghost use Rattle.node_solver.specs.Plans.{IsBestOf};
ghost use Rattle.node_solver.specs.Settled.{IsSettled};
ghost use Rattle.node_solver.specs.Steps.{Ends, KeepsProved, prices_of};

use crate::best_plan::{BestPlan, SHORT};
use crate::choosing::choice_of;
use crate::rounds::{Answer, rounds};
use crate::spans::spans_of;
use crate::step::{NodeEnd, Parts, Shares, Why};
use crate::uses::uses_of;
use column_arena::Columns;
use crew_terms::Choice;
use label_pricing::Pricer;
use master_laws::{lists_are_runs, rounded_prices_are_near, unproved_shares_are_loose};
use master_run::{Halt, Run};
use node_limits::Limits;
use search_laws::less_is_proved;
use std::alloc::Global;

/// Splits the node by the shares at which its master's rounds have settled, unless a plan that they suggest is so good
/// that the prices prove it best.
fn end_loose<C: Columns>(
    alloc: Global,
    limits: &Limits<'_>,
    columns: &C,
    run: &Run,
    answer: Answer,
    wanted: Option<Choice>,
    best: &mut BestPlan,
) -> Result<NodeEnd, Halt>
    requires open { IsDecided limits.now.limits → ⊥ }
    requires most { best.old.unassigned ≤ tasks_in limits.now.limits }
    requires settled { IsSettled limits.now.limits (C.columns columns.now) run.now answer.prices }
    requires count { IsProvedCount limits.now.limits answer.prices answer.proved }
    requires shape { ArePricesOf limits.now.limits answer.prices }
    requires wanted { IfSome wanted (IsValidChoice limits.now.limits) }
    ensures ends { IfOk result (Ends limits.now.limits best.new.unassigned run.now.pivots
        (C.columns columns.now)) }
    ensures shape { IfOk result (λ e. ArePricesOf limits.now.limits (prices_of e)) }
    ensures required { IfOk result (λ e. IsOnRequired limits.now.limits (prices_of e)) }
    ensures shown { IfOk result (IsShown limits.now.limits best.new.unassigned
        (C.columns columns.now)) }
    ensures held { IfOk result (HasHeld limits.now.limits (C.columns columns.now)) }
    ensures keeps { (start : NodePrices) → IfOk result (KeepsProved limits.now.limits start) }
    ensures halts { IfErr result (Halts limits.now.limits run.now.pivots (C.columns columns.now)) }
    ensures best { (b : ℕ) → IsBestOf limits.now.limits.instance b best.old
        → IsBestOf limits.now.limits.instance b best.new }
    ensures fewer { best.new.unassigned ≤ best.old.unassigned }
{
    less_is_proved();
    lists_are_runs();
    rounded_prices_are_near();
    unproved_shares_are_loose();
    let solution = run.solution(alloc)?;
    let uses = uses_of(alloc, columns, &solution.shares)?;
    best.try_uses(alloc, limits.instance(), &uses, SHORT)?;
    if answer.proved >= best.unassigned {
        return Ok(NodeEnd::Closed(answer.prices));
    }
    let spans = spans_of(alloc, limits, columns, &solution.shares)?;
    let choice = choice_of(alloc, limits, &answer.prices, &spans, solution.den, wanted)?;
    let why = Why::Loose {
        den: solution.den,
        shares: Shares::of(solution.shares),
        left_open: Parts::of(solution.left_open),
    };
    Ok(NodeEnd::Split {
        choice,
        why,
        prices: answer.prices,
    })
}

/// Ends a node that isn't decided by its master: the run over the columns, and rounds in which routes are added.
pub(crate) fn end_by_master<C: Columns>(
    alloc: Global,
    limits: &Limits<'_>,
    columns: &mut C,
    pivots: u32,
    wanted: Option<Choice>,
    best: &mut BestPlan,
) -> Result<NodeEnd, Halt>
    requires open { IsDecided limits.now.limits → ⊥ }
    requires most { best.old.unassigned ≤ tasks_in limits.now.limits }
    requires wanted { IfSome wanted (IsValidChoice limits.now.limits) }
    ensures ends { IfOk result (Ends limits.now.limits best.new.unassigned pivots
        (C.columns columns.new)) }
    ensures shape { IfOk result (λ e. ArePricesOf limits.now.limits (prices_of e)) }
    ensures required { IfOk result (λ e. IsOnRequired limits.now.limits (prices_of e)) }
    ensures shown { IfOk result (IsShown limits.now.limits best.new.unassigned
        (C.columns columns.new)) }
    ensures held { IfOk result (HasHeld limits.now.limits (C.columns columns.new)) }
    ensures keeps { (start : NodePrices) → IfOk result (KeepsProved limits.now.limits start) }
    ensures halts { IfErr result (Halts limits.now.limits pivots (C.columns columns.new)) }
    ensures best { (b : ℕ) → IsBestOf limits.now.limits.instance b best.old
        → IsBestOf limits.now.limits.instance b best.new }
    ensures fewer { best.new.unassigned ≤ best.old.unassigned }
    ensures extends { Extends limits.now.limits (C.columns columns.old) (C.columns columns.new) }
{
    less_is_proved();
    let mut run = Run::over(alloc, limits, columns, pivots)?;
    let mut pricer = Pricer::reserve(alloc, limits.instance())?;
    let now = best.unassigned;
    let answer = rounds(alloc, limits, now, columns, &mut run, &mut pricer)?;
    if answer.proved >= now {
        return Ok(NodeEnd::Closed(answer.prices));
    }
    end_loose(alloc, limits, columns, &run, answer, wanted, best)
}
