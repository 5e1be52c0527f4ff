// What keeps a decided node from having a plan.
ghost use Rattle.std.specs.Prelude.{◌≡◌, ◌<◌, ◌↔◌, IsTrue, MatchOption};
ghost use Rattle.crew_terms.specs.Limits.{tasks_in};
ghost use Rattle.crew_terms.specs.Decided.{IsDecided};
ghost use Rattle.search_terms.specs.Closing.{IsCrowded, IsShort, NoneIsStuck, required_plan};
ghost use Rattle.leaf_close.specs.Cases.{HasNoFault, IsFirstCrowded, IsFirstShort, IsFirstStuck, NoneIsCrowded, NoneIsShort};
ghost use Rattle.leaf_close.specs.Faults.{IsFirstNodeFault};

use crate::turns::is_stuck;
use arrayvec::ArrayVec;
use node_limits::Limits;
use plan_check::Plan;

/// Why no plan is in a decided node.
#[derive(Clone, Copy)]
pub(crate) enum Fault {
    /// The team can't do all that is required of it.
    Stuck(u32),
    /// The task has more required teams than it needs.
    Crowded(u32),
    /// The task has required teams, but fewer than it needs.
    Short(u32),
}

/// The lowest team that can't do all that is required of it.
fn stuck_team(limits: &Limits<'_>, plan: &Plan) -> Option<u32>
    requires decided { IsDecided limits.now.limits }
    requires plan { plan.now ≡ required_plan limits.now.limits }
    ensures { MatchOption result (NoneIsStuck limits.now.limits) (IsFirstStuck limits.now.limits) }
{
    let mut turns = ArrayVec::new();
    for k in 0..limits.instance().teams() as u32 {
        if is_stuck(limits, plan, k, &mut turns) {
            return Some(k);
        }
    }
    None
}

/// Whether task `j` has more required teams than it needs.
fn is_crowded(limits: &Limits<'_>, j: u32) -> bool
    requires { j < tasks_in limits.now.limits }
    ensures { IsTrue result ↔ IsCrowded limits.now.limits j }
{
    limits.required(j) > limits.instance().task(j).teams
}

/// Whether task `j` has required teams, but fewer than it needs.
fn is_short(limits: &Limits<'_>, j: u32) -> bool
    requires { j < tasks_in limits.now.limits }
    ensures { IsTrue result ↔ IsShort limits.now.limits j }
{
    let required = limits.required(j);
    required > 0 && required < limits.instance().task(j).teams
}

/// The lowest task that has more required teams than it needs.
fn crowded_task(limits: &Limits<'_>) -> Option<u32>
    ensures { MatchOption result (NoneIsCrowded limits.now.limits)
        (IsFirstCrowded limits.now.limits) }
{
    for j in 0..limits.instance().tasks() as u32 {
        if is_crowded(limits, j) {
            return Some(j);
        }
    }
    None
}

/// The lowest task that has required teams, but fewer than it needs.
fn short_task(limits: &Limits<'_>) -> Option<u32>
    ensures { MatchOption result (NoneIsShort limits.now.limits) (IsFirstShort limits.now.limits) }
{
    for j in 0..limits.instance().tasks() as u32 {
        if is_short(limits, j) {
            return Some(j);
        }
    }
    None
}

/// The first fault of a decided node. The plan is that of the required pairs.
pub(crate) fn first_fault(limits: &Limits<'_>, plan: &Plan) -> Option<Fault>
    requires decided { IsDecided limits.now.limits }
    requires plan { plan.now ≡ required_plan limits.now.limits }
    ensures { MatchOption result (HasNoFault limits.now.limits)
        (IsFirstNodeFault limits.now.limits) }
{
    if let Some(k) = stuck_team(limits, plan) {
        return Some(Fault::Stuck(k));
    }
    if let Some(j) = crowded_task(limits) {
        return Some(Fault::Crowded(j));
    }
    short_task(limits).map(Fault::Short)
}
