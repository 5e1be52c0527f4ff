// The instance of some tasks of an instance.
ghost use Rattle.std.specs.Prelude.{◌<◌, All, IfOk, length};
ghost use Rattle.std.specs.List.Sorted.{IsStrictlyIncreasing};
ghost use Rattle.part_terms.specs.Parts.{Restricts};

use crate::jobs::frozen_of;
use crate::lists::{places_of, tasks_of, teams_of};
use crate::tables::shortest;
use crew_instance::Instance;
use crew_laws::feasible_whatever_is_frozen;
use part_laws::restricted_plans_are_legal;
use std::alloc::{AllocError, Global};

/// The instance of these tasks, which restricts the whole: its places and teams, the tasks with their frozen jobs, and the times of
/// the shortest ways between places.
pub fn part_of(alloc: Global, whole: &Instance, tasks: &[u32]) -> Result<Instance, AllocError>
    requires known { All (λ t. t < length whole.now.tasks) tasks.now }
    requires rising { IsStrictlyIncreasing tasks.now }
    ensures { IfOk result (λ part. Restricts whole.now part tasks.now) }
{
    restricted_plans_are_legal();
    feasible_whatever_is_frozen();
    // What always holds of the whole is known from here on.
    let _ = whole.tasks();
    let places = places_of(alloc, whole)?;
    let teams = teams_of(alloc, whole)?;
    let kept = tasks_of(alloc, whole, tasks)?;
    let travel = shortest(alloc, whole)?;
    let frozen = frozen_of(alloc, whole, tasks)?;
    Ok(Instance::of_parts(places, teams, kept, travel).with_frozen(frozen))
}
