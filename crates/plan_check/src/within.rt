// Whether a plan keeps the limits of a node.
ghost use Rattle.std.specs.Prelude.{◌<◌, ◌↔◌, IsTrue, length, ℕ};
ghost use Rattle.crew_terms.specs.Limits.{IsWithin, tasks_in, teams_in};
ghost use Rattle.crew_terms.specs.Plan.{Does};
ghost use Rattle.crew_terms.specs.Verdict.{IsPlanOf};
ghost use Rattle.plan_check.specs.Within.{BeginsWithin, KeepsPair, KeepsTask};

use crew_instance::Plan;
use crew_terms::Pair;
use node_limits::Limits;

/// Whether team `k` does task `j`.
fn does(plan: &Plan, k: u32, j: u32) -> bool
    requires { j < length plan.now }
    ensures { IsTrue result ↔ ((t : ℕ) × Does plan.now k j t) }
{
    plan.teams(j).contains(&k)
}

/// Whether the plan keeps what the node says of team `k` and task `j`.
fn keeps_pair(limits: &Limits<'_>, plan: &Plan, k: u32, j: u32) -> bool
    requires team { k < teams_in limits.now.limits }
    requires task { j < tasks_in limits.now.limits }
    requires plan { j < length plan.now }
    ensures { IsTrue result ↔ KeepsPair limits.now.limits plan.now k j }
{
    match limits.pair(k, j) {
        Pair::Free => true,
        Pair::Forbidden => !does(plan, k, j),
        Pair::Required => does(plan, k, j),
    }
}

/// Whether task `j` begins in its window, if it is assigned.
fn begins_within(limits: &Limits<'_>, plan: &Plan, j: u32) -> bool
    requires task { j < tasks_in limits.now.limits }
    requires plan { j < length plan.now }
    ensures { IsTrue result ↔ BeginsWithin limits.now.limits plan.now j }
{
    let (from, until) = limits.window(j);
    match plan.start(j) {
        Some(start) => from <= start && start <= until,
        None => true,
    }
}

/// Whether the plan keeps the limits at task `j`.
fn keeps_task(limits: &Limits<'_>, plan: &Plan, j: u32) -> bool
    requires task { j < tasks_in limits.now.limits }
    requires plan { j < length plan.now }
    ensures { IsTrue result ↔ KeepsTask limits.now.limits plan.now j }
{
    for k in 0..limits.instance().teams() as u32 {
        if !keeps_pair(limits, plan, k, j) {
            return false;
        }
    }
    begins_within(limits, plan, j)
}

/// Whether the plan is within the limits of the node: each start lies in its task's window, no forbidden pair is
/// used, and each required one is.
pub fn in_limits(limits: &Limits<'_>, plan: &Plan) -> bool
    requires { IsPlanOf limits.now.limits.instance plan.now }
    ensures { IsTrue result ↔ IsWithin limits.now.limits plan.now }
{
    for j in 0..plan.len() as u32 {
        if !keeps_task(limits, plan, j) {
            return false;
        }
    }
    true
}
