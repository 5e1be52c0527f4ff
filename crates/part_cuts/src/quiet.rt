// How many tasks that need several teams can be at work at a minute.
ghost use Rattle.std.specs.Prelude.{◌<◌, ◌^◌};

use crew_instance::{Instance, Task};
use crew_terms::LAST_MINUTE;
use std::alloc::{AllocError, Global};

/// Whether the task needs several teams.
pub(crate) fn is_joint(task: &Task) -> bool {
    task.teams > 1
}

/// The first minute at which the task can be at work, and the first at which it can be no more.
pub(crate) fn work_time(task: &Task) -> (usize, usize)
    ensures from { result.0 < 2 ^ 32 }
    ensures to { result.1 < 2 ^ 33 }
{
    let from = task.earliest as usize;
    let to = task.latest as usize + task.minutes as usize;
    (from, to)
}

/// Counts a task at each minute at which a cut would part its time.
fn count(across: &mut [u32], task: &Task) {
    let (from, to) = work_time(task);
    let end = to.min(across.len());
    for m in from + 1..end {
        across[m] = across[m].saturating_add(1);
    }
}

/// For each minute how many joint tasks can be at work before and behind it.
pub(crate) fn joint_tasks(alloc: Global, instance: &Instance) -> Result<Vec<u32>, AllocError> {
    let mut across = Vec::new(alloc);
    across.resize(LAST_MINUTE as usize + 1, 0)?;
    for j in 0..instance.tasks() as u32 {
        let task = instance.task(j);
        if is_joint(task) {
            count(&mut across, task);
        }
    }
    Ok(across)
}
