// The step at a root: its searches for plans, the rounds of its ascents, the pivots of its master's run, and how it ends.
ghost use Rattle.std.specs.Prelude.{IfOk};
ghost use Rattle.crew_terms.specs.Leaf.{IsOnRequired};
ghost use Rattle.potentials.specs.Prices.{ArePricesOf};

use crate::figures::{Figures, RootEnd};
use crate::tasks::planned;
use column_arena::VecColumns;
use crew_instance::{Plan, unassigned};
use node_limits::Limits;
use plan_builder::from_uses;
use plan_ruin::rebuild;
use potentials::Prices;
use price_ascent::{Ascended, ascend, average_uses};
use search_core::{DAY_EFFORT, Instance, Search, Why};
use std::alloc::{AllocError, Global};

/// The rounds of the two ascents of the step, 0 where there is none.
struct Rounds {
    first: u32,
    again: u32,
}

/// How the step ends that has so many pivots for its master's run.
fn end_with(alloc: Global, instance: &Instance, pivots: u32) -> Result<RootEnd, AllocError> {
    let mut columns = VecColumns::new(alloc);
    let mut search = Search::new(alloc, instance, 1, None, DAY_EFFORT)?;
    let Some(key) = search.due() else {
        return Ok(RootEnd::Closed);
    };
    search.step_with(key, &mut columns, pivots)?;
    let outcome = search.close()?;
    let Some(cause) = outcome.causes.first() else {
        return Ok(RootEnd::Closed);
    };
    Ok(match cause.why {
        Why::Loose { .. } => RootEnd::Loose,
        Why::Overflow(_) => RootEnd::Overflow,
        Why::Spent => RootEnd::Spent,
    })
}

/// The least number of pivots, of at most this many, with which the step doesn't spend them.
fn pivots_of(alloc: Global, instance: &Instance, most: u32) -> Result<u32, AllocError> {
    let mut low = 0u32;
    let mut high = most;
    for _ in 0..u32::BITS {
        if low >= high {
            break;
        }
        let middle = low + (high - low) / 2;
        match end_with(alloc, instance, middle)? {
            RootEnd::Spent => low = middle + 1,
            RootEnd::Closed | RootEnd::Loose | RootEnd::Overflow => high = middle,
        }
    }
    Ok(high)
}

/// A plan as the routes of the ascent suggest it, ruined and recreated as long as the root's step does before another ascent.
fn suggested(alloc: Global, limits: &Limits<'_>, found: &Ascended) -> Result<Plan, AllocError> {
    let instance = limits.instance();
    let uses = average_uses(alloc, &found.routes, found.rounds)?;
    let plan = from_uses(alloc, instance, &uses)?;
    let effort = DAY_EFFORT.rebuild.over(instance.tasks());
    rebuild(alloc, instance, &plan, found.proved, effort)
}

/// What the step's first search for a plan leaves unassigned.
fn first_goal(alloc: Global, limits: &Limits<'_>) -> Result<u32, AllocError> {
    Ok(unassigned(&planned(alloc, limits.instance(), DAY_EFFORT.iterations)?))
}

/// The step's first ascent, which aims at so many unassigned tasks.
fn first_ascent(alloc: Global, limits: &Limits<'_>, goal: u32) -> Result<Ascended, AllocError>
    ensures prices { IfOk result (λ a. ArePricesOf limits.now.limits a.prices) }
    ensures required { IfOk result (λ a. IsOnRequired limits.now.limits a.prices) }
{
    let start = Prices::zero(alloc, limits)?;
    ascend(
        alloc,
        limits,
        start,
        goal,
        DAY_EFFORT.ascent_at(0, limits.instance().tasks()),
    )
}

/// What the step's first search for a plan leaves unassigned, and what its second one leaves, which goes on from the routes of
/// the first ascent.
pub fn planned_again(alloc: Global, limits: &Limits<'_>) -> Result<Figures, AllocError> {
    let first = first_goal(alloc, limits)?;
    let found = first_ascent(alloc, limits, first)?;
    let second = unassigned(&suggested(alloc, limits, &found)?);
    Ok(Figures::Again {
        first,
        second,
        proved: found.proved,
    })
}

/// The rounds of the step's ascents: they are made again as the step makes them.
fn rounds_of(alloc: Global, limits: &Limits<'_>) -> Result<Rounds, AllocError> {
    let goal = first_goal(alloc, limits)?;
    let first = first_ascent(alloc, limits, goal)?;
    let rounds = first.rounds;
    if first.proved >= goal {
        return Ok(Rounds {
            first: rounds,
            again: 0,
        });
    }
    let goal = goal.min(unassigned(&suggested(alloc, limits, &first)?));
    let again = ascend(alloc, limits, first.prices, goal, DAY_EFFORT.again)?;
    Ok(Rounds {
        first: rounds,
        again: again.rounds,
    })
}

/// What the step at the root comes to, with so many pivots at most.
pub fn root(alloc: Global, limits: &Limits<'_>, pivots: u32) -> Result<Figures, AllocError> {
    let Rounds { first, again } = rounds_of(alloc, limits)?;
    let end = end_with(alloc, limits.instance(), pivots)?;
    Ok(Figures::Root {
        first,
        again,
        pivots: pivots_of(alloc, limits.instance(), pivots)?,
        end,
    })
}
