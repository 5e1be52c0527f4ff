// The numbers that the tasks of a part have in the whole.
ghost use Rattle.std.specs.Prelude.{◌≡◌, ◌<◌, ◌↔◌, ℕ, List, length, IfOk, IsTrue, MatchOption};
ghost use Rattle.crew_terms.specs.Instance.{task_of};
ghost use Rattle.part_match.specs.Matched.{AreNumbers};

use crew_instance::Instance;
use std::alloc::{AllocError, Global};

/// Whether task `j` of the whole is task `k` of the part, which has so many.
fn is_task(whole: &Instance, part: &Instance, j: u32, k: usize) -> bool
    requires { j < length whole.now.tasks }
    ensures { IsTrue result ↔
        ((k < length part.now.tasks) × (task_of whole.now j ≡ task_of part.now k)) }
{
    k < part.tasks() && whole.task(j) == part.task(k as u32)
}

/// The numbers that the part's tasks have in the whole, where they stand there with all their fields and in their order. No two
/// tasks of an instance have one name, so it is enough to look for the next one.
pub(crate) fn numbers(
    alloc: Global,
    whole: &Instance,
    part: &Instance,
) -> Result<Option<Vec<u32>>, AllocError>
    ensures { IfOk result (λ found. MatchOption found
        ((tasks : List ℕ) → ¬ (AreNumbers whole.now part.now tasks))
        (λ tasks. AreNumbers whole.now part.now tasks.items)) }
{
    let mut tasks = Vec::with_capacity(alloc, part.tasks())?;
    for j in 0..whole.tasks() as u32 {
        if is_task(whole, part, j, tasks.len()) {
            tasks.push(j)?;
        }
    }
    if tasks.len() < part.tasks() {
        return Ok(None);
    }
    Ok(Some(tasks))
}
