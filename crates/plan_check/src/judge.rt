// Whether a plan is legal, of whatever tasks and teams it is, and may take the place of another.
ghost use Rattle.std.specs.Prelude.{◌≤◌, ◌<◌, ◌↔◌, All, IsTrue};
ghost use Rattle.crew_terms.specs.Legal.{IsLegal};
ghost use Rattle.crew_terms.specs.Plan.{unassigned_count};
ghost use Rattle.crew_terms.specs.Verdict.{IsPlanOf};

use crate::check::check_plan;
use crew_instance::{Instance, Plan, unassigned};
use crew_terms::PlanVerdict;

// Whether each team is one of so many.
fn are_below(teams: &[u32], n: usize) -> bool
    ensures { IsTrue result ↔ All (λ k. k < n) teams.now }
{
    teams.iter().all(|k| (*k as usize) < n)
}

// Whether the plan has a place for each task, and knows each team that it names.
fn is_plan_of(instance: &Instance, plan: &Plan) -> bool
    ensures { IsTrue result ↔ IsPlanOf instance.now plan.now }
{
    for j in 0..plan.len() as u32 {
        if !are_below(plan.teams(j), instance.teams()) {
            return false;
        }
    }
    plan.len() == instance.tasks()
}

/// Whether the plan is legal; it may be of other tasks and teams than the instance's.
pub fn is_legal(instance: &Instance, plan: &Plan) -> bool
    ensures { IsTrue result ↔ IsLegal instance.now plan.now }
{
    if !is_plan_of(instance, plan) {
        return false;
    }
    check_plan(instance, plan) == PlanVerdict::Legal
}

/// Whether the plan is legal and leaves no more tasks unassigned than the other.
pub fn is_as_good(instance: &Instance, plan: &Plan, other: &Plan) -> bool
    ensures { IsTrue result
        ↔ (IsLegal instance.now plan.now
        × (unassigned_count plan.now ≤ unassigned_count other.now)) }
{
    is_legal(instance, plan) && unassigned(plan) <= unassigned(other)
}
