// Pieces of the planner's work over an instance, and their figures.
ghost use Rattle.std.specs.Prelude.{◌≡◌, ◌<◌, ◌≤◌, IfOk, length};
ghost use Rattle.crew_terms.specs.Leaf.{IsOnRequired};
ghost use Rattle.crew_terms.specs.Legal.{IsLegal};
ghost use Rattle.potentials.specs.Prices.{ArePricesOf};

use crate::columns::{added, asked, filtered};
use crate::days::instance_of;
use crate::errors::BenchError;
use crate::figures::{Ending, Figures};
use crate::roots::{planned_again, root};
use crate::searches::searched;
use crate::widest::widest;
use crate::words::{Kind, Work};
use column_arena::{Columns, VecColumns};
use crew_instance::{Instance, Plan, unassigned};
use crew_terms::{MOST_TASKS, MOST_TEAMS};
use label_pricing::Pricer;
use master_run::{Halt, Run};
use node_limits::Limits;
use plan_builder::greedy;
use plan_ruin::{Effort as RuinEffort, rebuild};
use plan_search::{Effort as SearchEffort, better};
use potentials::Prices;
use price_ascent::{Ascended, Effort, FoundRoute, ascend};
use search_core::DAY_EFFORT;
use std::alloc::{AllocError, Global};

/// So many rounds an ascent makes at the root.
const ROOT_ROUNDS: u32 = 500;

/// So many iterations the first search for a plan makes.
const FIRST_SEARCH: u32 = 20_000;

/// The routes of so many last rounds of an ascent become columns.
const COLUMN_ROUNDS: u32 = 10;

/// A greedy plan, bettered by so many iterations.
pub(crate) fn planned(
    alloc: Global,
    instance: &Instance,
    iterations: u32,
) -> Result<Plan, AllocError>
    ensures { IfOk result (λ p. IsLegal instance.now p) }
{
    let effort = SearchEffort {
        iterations,
        enough: 0,
        weights: None,
    };
    let plan = greedy(alloc, instance)?;
    better(alloc, instance, &plan, effort)
}

/// What a greedy plan leaves unassigned, bettered by so many iterations.
fn plan(alloc: Global, instance: &Instance, iterations: u32) -> Result<Figures, AllocError> {
    let unassigned = unassigned(&planned(alloc, instance, iterations)?);
    Ok(Figures::Plan {
        unassigned,
        iterations,
    })
}

/// What a plan leaves unassigned that is bettered by the first search, and then ruined and recreated.
fn ruined(alloc: Global, instance: &Instance, work: &Work) -> Result<Figures, AllocError> {
    let plan = planned(alloc, instance, FIRST_SEARCH)?;
    let effort = RuinEffort {
        looks: u64::from(work.count).saturating_mul(1_000_000),
        seed: work.seed,
    };
    let found = rebuild(alloc, instance, &plan, work.enough, effort)?;
    Ok(Figures::Ruin {
        first: unassigned(&plan),
        second: unassigned(&found),
    })
}

/// Prices that rise from zero by so many rounds, towards this number of unassigned tasks.
fn risen(alloc: Global, limits: &Limits<'_>, goal: u32, rounds: u32) -> Result<Ascended, AllocError>
    ensures prices { IfOk result (λ a. ArePricesOf limits.now.limits a.prices) }
    ensures required { IfOk result (λ a. IsOnRequired limits.now.limits a.prices) }
{
    let start = Prices::zero(alloc, limits)?;
    let effort = Effort {
        rounds,
        looks: u64::MAX,
        ..DAY_EFFORT.ascent_at(0, limits.instance().tasks())
    };
    ascend(alloc, limits, start, goal, effort)
}

/// The worths of all teams, by the prices of a short ascent, as often.
fn pricing(alloc: Global, limits: &Limits<'_>, rounds: u32) -> Result<Figures, AllocError> {
    let goal = unassigned(&greedy(alloc, limits.instance())?);
    let prices = risen(alloc, limits, goal, 20)?.prices;
    let mut pricer = Pricer::reserve(alloc, limits.instance())?;
    let mut found = pricer.proved(limits, &prices);
    for _ in 0..rounds {
        found = pricer.proved(limits, &prices);
    }
    Ok(Figures::Prices {
        goal,
        bound: found.bound,
        proved: found.count,
        rounds,
    })
}

/// An ascent from zero prices that aims at what a plan leaves unassigned.
fn ascent(alloc: Global, limits: &Limits<'_>, rounds: u32) -> Result<Figures, AllocError> {
    let goal = unassigned(&planned(alloc, limits.instance(), FIRST_SEARCH)?);
    let found = risen(alloc, limits, goal, rounds)?;
    Ok(Figures::Prices {
        goal,
        bound: found.bound,
        proved: found.proved,
        rounds: found.rounds,
    })
}

/// Adds a route to the columns, if it is of the last rounds.
fn add_column(columns: &mut VecColumns, route: &FoundRoute, last: u32) -> Result<(), AllocError> {
    let is_late = last < route.round.saturating_add(COLUMN_ROUNDS);
    let are_tasks = route
        .visits
        .iter()
        .all(|visit| (visit.task as usize) < MOST_TASKS);
    if !is_late || route.visits.is_empty() || !are_tasks || route.team as usize >= MOST_TEAMS {
        return Ok(());
    }
    columns.add(route.team, &route.visits)?;
    Ok(())
}

/// The routes of the last rounds of an ascent, as columns.
fn columns_of(alloc: Global, found: &Ascended) -> Result<VecColumns, AllocError> {
    let mut columns = VecColumns::new(alloc);
    for route in &found.routes {
        add_column(&mut columns, route, found.rounds)?;
    }
    Ok(columns)
}

/// The run of the master over the routes of the last rounds of an ascent, with so many pivots.
fn run(alloc: Global, limits: &Limits<'_>, pivots: u32) -> Result<Figures, AllocError> {
    let goal = unassigned(&planned(alloc, limits.instance(), FIRST_SEARCH)?);
    let found = risen(alloc, limits, goal, ROOT_ROUNDS)?;
    let columns = columns_of(alloc, &found)?;
    let (made, ending) = match Run::over(alloc, limits, &columns, pivots) {
        Ok(run) => (pivots.saturating_sub(run.left()), Ending::Optimum),
        Err(Halt::Spent) => (pivots, Ending::Spent),
        Err(Halt::Overflow(_)) => (0, Ending::Overflow),
        Err(Halt::OutOfMemory) => return Err(AllocError),
    };
    Ok(Figures::Run {
        columns: columns.len(),
        pivots: made,
        ending,
    })
}

/// Does the work, and gives its figures.
pub fn done(alloc: Global, work: &Work) -> Result<Figures, BenchError> {
    let instance = match work.kind {
        Kind::Widest => widest(alloc, work.teams, work.tasks)?,
        _ => instance_of(alloc, work.day, work.teams, work.tasks)?,
    };
    let mut limits = Limits::root(alloc, &instance)?;
    let figures = match work.kind {
        Kind::Plan => plan(alloc, &instance, work.count)?,
        Kind::Ruin => ruined(alloc, &instance, work)?,
        Kind::Pricing | Kind::Widest => pricing(alloc, &limits, work.count)?,
        Kind::Ascent => ascent(alloc, &limits, work.count)?,
        Kind::Master => run(alloc, &limits, work.count)?,
        Kind::Solve => searched(alloc, &instance, work.count)?,
        Kind::Root => root(alloc, &limits, work.count)?,
        Kind::Again => planned_again(alloc, &limits)?,
        Kind::Columns => added(alloc, &instance, work.count)?,
        Kind::Using => asked(alloc, &instance, work.count)?,
        Kind::Legal => filtered(alloc, &mut limits, work.count)?,
    };
    Ok(figures)
}
