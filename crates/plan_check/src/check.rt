// Whether a plan is legal.
ghost use Rattle.std.specs.Prelude.{◌≡◌, ◌<◌, ◌↔◌, ℕ, length, IsTrue, MatchOption};
ghost use Rattle.crew_terms.specs.Legal.{IsLegal, KeepsFrozen};
ghost use Rattle.crew_terms.specs.Verdict.{IsFirstUnkept, IsPlanOf, IsVerdict};

use crew_instance::{Instance, Plan, TurnRoom, feasibility_in};
use crew_terms::PlanVerdict;

/// Whether the plan has the frozen job of task `j`, if there is one.
fn keeps_frozen(instance: &Instance, plan: &Plan, j: u32) -> bool
    requires task { j < length instance.now.tasks }
    requires plan { j < length plan.now }
    ensures { IsTrue result ↔ KeepsFrozen instance.now plan.now j }
{
    match instance.frozen(j) {
        Some((start, teams)) => plan.start(j) == Some(start) && plan.teams(j) == teams,
        None => true,
    }
}

/// The first task of which the plan doesn't have the frozen job.
fn first_unkept(instance: &Instance, plan: &Plan) -> Option<u32>
    requires { IsPlanOf instance.now plan.now }
    ensures { MatchOption result ((j : ℕ) → KeepsFrozen instance.now plan.now j)
        (IsFirstUnkept instance.now plan.now) }
{
    for j in 0..instance.tasks() as u32 {
        if !keeps_frozen(instance, plan, j) {
            return Some(j);
        }
    }
    None
}

/// Whether the plan is legal, or else its first fault: the first task of which it doesn't have the frozen job, then of
/// its jobs by task, and then of its teams. It takes no memory.
pub fn check_plan(instance: &Instance, plan: &Plan) -> PlanVerdict
    requires { IsPlanOf instance.now plan.now }
    ensures verdict { IsVerdict instance.now plan.now result }
    ensures legal { (result ≡ PlanVerdict.Legal) ↔ IsLegal instance.now plan.now }
{
    check_plan_in(instance, plan, &mut TurnRoom::new())
}

/// What `check_plan` tells, in room that the caller keeps from plan to plan.
pub fn check_plan_in(instance: &Instance, plan: &Plan, room: &mut TurnRoom) -> PlanVerdict
    requires { IsPlanOf instance.now plan.now }
    ensures verdict { IsVerdict instance.now plan.now result }
    ensures legal { (result ≡ PlanVerdict.Legal) ↔ IsLegal instance.now plan.now }
{
    if let Some(j) = first_unkept(instance, plan) {
        return PlanVerdict::Frozen(j);
    }
    feasibility_in(instance, plan, room)
}
