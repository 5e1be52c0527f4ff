// The plan with which a search begins.
ghost use Rattle.std.specs.Prelude.{◌≡◌, ◌≤◌, IfOk, IfSome, option_copied};
ghost use Rattle.crew_terms.specs.Legal.{IsLegal, IsPacked};
ghost use Rattle.plan_again.specs.Stays.{IsNoWorse, StaysOrBetters};

use crew_instance::{Instance, Plan, unassigned};
use plan_builder::{greedy, pack};
use plan_ruin::{Effort as RuinEffort, rebuild_near};
use plan_search::{Effort as SearchEffort, better};
use std::alloc::{AllocError, Global};

/// How much is searched before a search by branch and price begins: so many iterations for a better plan, and so much for
/// one that is nearer to the plan that was there before.
#[derive(Clone, Copy, Debug)]
pub struct Effort {
    pub iterations: u32,
    pub near: RuinEffort,
}

impl Effort {
    // The search for a better plan.
    fn search(&self) -> SearchEffort<'static> {
        SearchEffort {
            iterations: self.iterations,
            enough: 0,
            weights: None,
        }
    }
}

/// Greedy's plan, bettered by search.
fn from_greedy(alloc: Global, instance: &Instance, effort: &Effort) -> Result<Plan, AllocError>
    ensures legal { IfOk result (λ p. IsLegal instance.now p) }
    ensures packed { IfOk result (λ p. IsPacked instance.now p) }
{
    let plan = greedy(alloc, instance)?;
    better(alloc, instance, &plan, effort.search())
}

/// The plan, packed, unless search finds one that does more tasks: then that one, brought near to it.
fn from_start(
    alloc: Global,
    instance: &Instance,
    start: &Plan,
    effort: &Effort,
) -> Result<Plan, AllocError>
    requires { IsLegal instance.now start.now }
    ensures legal { IfOk result (λ p. IsLegal instance.now p) }
    ensures packed { IfOk result (λ p. IsPacked instance.now p) }
    ensures stays { IfOk result (λ p. IsNoWorse start.now p) }
{
    let found = better(alloc, instance, start, effort.search())?;
    if unassigned(&found) < unassigned(start) {
        rebuild_near(alloc, instance, &found, start, effort.near)
    } else {
        pack(alloc, instance, start)
    }
}

/// A legal and packed plan with which a search begins: greedy's, bettered by search. Where a legal plan is there to begin with,
/// it is that one with the tasks that can be added, unless search from it finds one that does more tasks, which is then brought
/// near to it. It has no clock, and equal calls give equal plans. AllocError where there is no memory.
pub fn first_plan(
    alloc: Global,
    instance: &Instance,
    start: Option<&Plan>,
    effort: &Effort,
) -> Result<Plan, AllocError>
    requires { IfSome (option_copied start) (λ p. IsLegal instance.now p) }
    ensures legal { IfOk result (λ p. IsLegal instance.now p) }
    ensures packed { IfOk result (λ p. IsPacked instance.now p) }
    ensures stays { IfOk result (StaysOrBetters (option_copied start.entry)) }
{
    match start {
        Some(plan) => from_start(alloc, instance, plan, effort),
        None => from_greedy(alloc, instance, effort),
    }
}
