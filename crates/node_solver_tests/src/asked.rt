// A step at a node, and what it came to.
ghost use Rattle.std.specs.Prelude.{◌≤◌, IfOk, IfSome};
ghost use Rattle.crew_terms.specs.Leaf.{IsOnRequired};
ghost use Rattle.crew_terms.specs.Limits.{tasks_in};
ghost use Rattle.node_solver.specs.Steps.{prices_of};
ghost use Rattle.potentials.specs.Prices.{ArePricesOf};
ghost use Rattle.search_terms.specs.Choice.{IsValidChoice};
ghost use Rattle.search_terms.specs.Inside.{IsNode};

use column_arena::{Columns, VecColumns};
use crew_instance::{Instance, Plan, unassigned};
use crew_terms::Choice;
use label_pricing::Pricer;
use node_limits::Limits;
use node_solver::{
    AscentEffort, Effort, NodeEnd, Prices, RehearsalEffort, RuinEffort, ScoutEffort, Step, Why,
    process,
};
use plan_builder::greedy;
use search_laws::search_nodes;
use std::alloc::{AllocError, Global};
use std::process::Abort;

/// How a step ends its node: how many tasks its prices prove unassigned, or by which choice it splits the node, and why.
#[derive(Clone, Copy, Debug, PartialEq, Eq)]
pub enum Ended {
    Closed(u32),
    Loose(Choice),
    Overflow(Choice),
    Spent(Choice),
}

/// What a step came to: how many tasks its plan leaves unassigned, if it found one, and how it ends the node.
#[derive(Clone, Copy, Debug, PartialEq, Eq)]
pub struct Outcome {
    pub unassigned: Option<u32>,
    pub ended: Ended,
}

const NO_ROUNDS: AscentEffort = AscentEffort {
    rounds: 0,
    step: 256,
    block: 10,
    looks: u64::MAX,
};

const NO_SEARCH: RuinEffort = RuinEffort { looks: 0, seed: 0 };

const NO_SCOUT: ScoutEffort = ScoutEffort {
    pivots: 0,
    rounds: 0,
    routes: 0,
};

const NO_REHEARSAL: RehearsalEffort = RehearsalEffort {
    programs: 0,
    pivots: 0,
    rounds: 0,
    pricings: 0,
};

/// So many pivots, no round of an ascent, no search for a plan, no scout, and no rehearsal.
pub fn pivots_alone(pivots: u32) -> Effort {
    Effort {
        ascent: NO_ROUNDS,
        rebuild: NO_SEARCH,
        again: NO_ROUNDS,
        scout: NO_SCOUT,
        rebuild_again: NO_SEARCH,
        rehearsal: NO_REHEARSAL,
        pivots,
    }
}

/// An ascent of 500 rounds, and no pivot.
pub fn ascent_alone() -> Effort {
    Effort {
        ascent: AscentEffort {
            rounds: 500,
            ..NO_ROUNDS
        },
        ..pivots_alone(0)
    }
}

/// A scout that hands over so many routes at most, and so many pivots of the master.
pub fn scout_alone(routes: u32, pivots: u32) -> Effort {
    Effort {
        scout: ScoutEffort {
            pivots: 1_000,
            rounds: 100,
            routes,
        },
        ..pivots_alone(pivots)
    }
}

/// Greedy's plan without its last jobs, so that it leaves so many tasks unassigned, or as many as greedy does.
pub fn plan_leaving(alloc: Global, day: &Instance, most: u32) -> Result<Plan, AllocError> {
    let mut plan = greedy(alloc, day)?;
    for i in (0..day.tasks() as u32).rev() {
        if unassigned(&plan) < most && (i as usize) < plan.len() {
            plan.clear(i);
        }
    }
    Ok(plan)
}

/// The root of a search.
pub fn root_of(alloc: Global, day: &Instance) -> Result<Limits<'_>, AllocError>
    ensures { IfOk result (λ n. IsNode n.limits) }
{
    search_nodes();
    let _ = day.tasks();
    Limits::root(alloc, day)
}

/// A step from prices that are all 0, from this plan, where this choice is wanted, if there is one.
pub fn step_by<C: Columns>(
    rt: &impl Abort,
    alloc: Global,
    limits: &Limits<'_>,
    best: &Plan,
    columns: &mut C,
    effort: &Effort,
    wanted: Option<Choice>,
) -> Result<Step, AllocError>
    requires node { IsNode limits.now.limits }
    requires wanted { IfSome wanted (IsValidChoice limits.now.limits) }
    ensures shape { IfOk result (λ s. ArePricesOf limits.now.limits (prices_of s.end)) }
    ensures required { IfOk result (λ s. IsOnRequired limits.now.limits (prices_of s.end)) }
{
    assert!(rt; unassigned(best) as usize <= limits.instance().tasks());
    let start = Prices::zero(alloc, limits)?;
    process(alloc, limits, start, best, columns, effort, wanted)
}

/// A step from prices that are all 0, from this plan, where no choice is wanted.
pub fn step_of<C: Columns>(
    rt: &impl Abort,
    alloc: Global,
    limits: &Limits<'_>,
    best: &Plan,
    columns: &mut C,
    effort: &Effort,
) -> Result<Step, AllocError>
    requires { IsNode limits.now.limits }
    ensures shape { IfOk result (λ s. ArePricesOf limits.now.limits (prices_of s.end)) }
    ensures required { IfOk result (λ s. IsOnRequired limits.now.limits (prices_of s.end)) }
{
    step_by(rt, alloc, limits, best, columns, effort, None)
}

/// The cut of the task's window behind this minute, where it can be cut so.
pub fn cut_at(limits: &Limits<'_>, task: u32, cut: u32) -> Option<Choice>
    ensures { IfSome result (IsValidChoice limits.now.limits) }
{
    if task as usize >= limits.instance().tasks() {
        return None;
    }
    let (from, until) = limits.window(task);
    if from <= cut && cut < until {
        Some(Choice::Window { task, cut })
    } else {
        None
    }
}

/// How many tasks the prices prove unassigned in the node.
fn proved_by(alloc: Global, limits: &Limits<'_>, prices: &Prices) -> Result<u32, AllocError>
    requires shape { ArePricesOf limits.now.limits prices.now }
    requires required { IsOnRequired limits.now.limits prices.now }
{
    let mut pricer = Pricer::reserve(alloc, limits.instance())?;
    Ok(pricer.proved(limits, prices).count)
}

/// What the step came to.
pub fn outcome_of(alloc: Global, limits: &Limits<'_>, step: &Step) -> Result<Outcome, AllocError>
    requires shape { ArePricesOf limits.now.limits (prices_of step.now.end) }
    requires required { IsOnRequired limits.now.limits (prices_of step.now.end) }
{
    let ended = match &step.end {
        NodeEnd::Closed(prices) => Ended::Closed(proved_by(alloc, limits, prices)?),
        NodeEnd::Split { choice, why, .. } => match why {
            Why::Loose { .. } => Ended::Loose(*choice),
            Why::Overflow(_) => Ended::Overflow(*choice),
            Why::Spent => Ended::Spent(*choice),
        },
    };
    let unassigned = match &step.plan {
        Some(plan) => Some(unassigned(plan)),
        None => None,
    };
    Ok(Outcome { unassigned, ended })
}

/// What a step without columns comes to, from prices that are all 0 and a plan that leaves so many tasks unassigned.
pub fn outcome_at(
    rt: &impl Abort,
    alloc: Global,
    limits: &Limits<'_>,
    best: u32,
    effort: &Effort,
) -> Result<Outcome, AllocError>
    requires { IsNode limits.now.limits }
{
    let best = plan_leaving(alloc, limits.instance(), best)?;
    let mut columns = VecColumns::new(alloc);
    let step = step_of(rt, alloc, limits, &best, &mut columns, effort)?;
    outcome_of(alloc, limits, &step)
}
