// What a team does in a plan.
ghost use Rattle.std.specs.Prelude.{IfOk};
ghost use Rattle.crew_terms.specs.Instance.{Instance as Problem};
ghost use Rattle.crew_terms.specs.Legal.{IsLegal};
ghost use Rattle.crew_laws.specs.Visits.{AreVisitsOf};
ghost use Rattle.plan_check.specs.Visits.{AreTasksOf};

use arrayvec::ArrayVec;
use crew_instance::{Plan, fill_turns};
use crew_terms::Visit;
use std::alloc::{AllocError, Global};

/// What team `k` does in the plan: each of its tasks with the minute at which it begins, by start and then by
/// number. In a legal plan no two of them begin together.
pub fn tasks_of(alloc: Global, plan: &Plan, k: u32) -> Result<Vec<Visit>, AllocError>
    ensures tasks { IfOk result (λ visits. AreTasksOf plan.now k visits.items) }
    ensures legal { (i : Problem) → IsLegal i plan.now →
        IfOk result (λ visits. AreVisitsOf plan.now k visits.items) }
{
    let mut turns = ArrayVec::new();
    fill_turns(plan, k, &mut turns);
    let turns = turns.as_slice();
    let mut visits = Vec::with_capacity(alloc, turns.len())?;
    for turn in turns {
        visits.push(Visit {
            task: turn.task,
            start: turn.start,
        })?;
    }
    Ok(visits)
}
