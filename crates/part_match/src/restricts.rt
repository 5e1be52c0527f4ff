// Whether an instance restricts another to some of its tasks.
ghost use Rattle.std.specs.Prelude.{ℕ, List, IfOk, MatchOption};
ghost use Rattle.part_terms.specs.Parts.{Restricts};

use crate::jobs::has_same_jobs;
use crate::numbers::numbers;
use crate::teams::{has_same_places, has_same_teams};
use crate::times::has_shorter_times;
use crew_instance::Instance;
use std::alloc::{AllocError, Global};

/// The numbers that the part's tasks have in the whole, where the part restricts it: it has the whole's places and teams, these
/// tasks with all their fields and frozen jobs, and travel times that are nowhere longer and meet the triangle inequality. None
/// exactly where it restricts the whole to no list of tasks.
pub fn restriction(
    alloc: Global,
    whole: &Instance,
    part: &Instance,
) -> Result<Option<Vec<u32>>, AllocError>
    ensures { IfOk result (λ found. MatchOption found
        ((tasks : List ℕ) → ¬ (Restricts whole.now part.now tasks))
        (λ tasks. Restricts whole.now part.now tasks.items)) }
{
    // What always holds of the whole is known from here on.
    let _ = whole.tasks();
    if !has_same_places(whole, part) || !has_same_teams(whole, part) {
        return Ok(None);
    }
    let Some(tasks) = numbers(alloc, whole, part)? else {
        return Ok(None);
    };
    if !has_same_jobs(whole, part, &tasks) {
        return Ok(None);
    }
    if !has_shorter_times(whole, part) {
        return Ok(None);
    }
    Ok(Some(tasks))
}
