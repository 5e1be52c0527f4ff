// The places and teams of an instance, and some of its tasks.
ghost use Rattle.std.specs.Prelude.{◌≡◌, ◌<◌, All, IfOk, length, map};
ghost use Rattle.crew_terms.specs.Instance.{task_of};

use crew_instance::{Instance, Name, Task, Team};
use std::alloc::{AllocError, Global};

/// The names of the places.
pub(crate) fn places_of(alloc: Global, whole: &Instance) -> Result<Vec<Name>, AllocError>
    ensures { IfOk result (λ places. places.items ≡ whole.now.places) }
{
    let mut places = Vec::with_capacity(alloc, whole.places())?;
    for p in 0..whole.places() as u32 {
        places.push(*whole.place(p))?;
    }
    Ok(places)
}

/// The teams.
pub(crate) fn teams_of(alloc: Global, whole: &Instance) -> Result<Vec<Team>, AllocError>
    ensures { IfOk result (λ teams. teams.items ≡ whole.now.teams) }
{
    let mut teams = Vec::with_capacity(alloc, whole.teams())?;
    for k in 0..whole.teams() as u32 {
        teams.push(*whole.team(k))?;
    }
    Ok(teams)
}

/// The tasks that have these numbers.
pub(crate) fn tasks_of(
    alloc: Global,
    whole: &Instance,
    tasks: &[u32],
) -> Result<Vec<Task>, AllocError>
    requires { All (λ t. t < length whole.now.tasks) tasks.now }
    ensures { IfOk result (λ kept. kept.items ≡ map (task_of whole.now) tasks.now) }
{
    let mut kept = Vec::with_capacity(alloc, tasks.len())?;
    for k in 0..tasks.len() {
        kept.push(*whole.task(tasks[k]))?;
    }
    Ok(kept)
}
