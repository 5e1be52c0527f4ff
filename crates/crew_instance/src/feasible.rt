// Whether the teams can do all jobs of a plan.
ghost use Rattle.std.specs.Prelude.{◌≡◌, ◌↔◌};
ghost use Rattle.crew_terms.specs.Legal.{IsFeasible};
ghost use Rattle.crew_terms.specs.Verdict.{IsFeasibility, IsPlanOf};

use crate::instances::Instance;
use crate::jobs::fault_of_jobs;
use crate::plans::Plan;
use crate::turns::{TurnRoom, fault_of_teams};
use crew_terms::PlanVerdict;

/// `Legal` where the plan is feasible, whatever is frozen, or else its first fault: of its jobs by task, and then of
/// its teams. It takes no memory.
// Its room is 6,400 bytes: once, and not in the frame of each caller.
#[inline(never)]
pub fn feasibility(instance: &Instance, plan: &Plan) -> PlanVerdict
    requires { IsPlanOf instance.now plan.now }
    ensures verdict { IsFeasibility instance.now plan.now result }
    ensures feasible { (result ≡ PlanVerdict.Legal) ↔ IsFeasible instance.now plan.now }
{
    feasibility_in(instance, plan, &mut TurnRoom::new())
}

/// What `feasibility` tells, in room that the caller keeps from plan to plan.
pub fn feasibility_in(instance: &Instance, plan: &Plan, room: &mut TurnRoom) -> PlanVerdict
    requires { IsPlanOf instance.now plan.now }
    ensures verdict { IsFeasibility instance.now plan.now result }
    ensures feasible { (result ≡ PlanVerdict.Legal) ↔ IsFeasible instance.now plan.now }
{
    if let Some(fault) = fault_of_jobs(instance, plan) {
        return fault;
    }
    if let Some(fault) = fault_of_teams(instance, plan, room) {
        return fault;
    }
    PlanVerdict::Legal
}
