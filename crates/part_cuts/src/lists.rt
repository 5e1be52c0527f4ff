// The tasks of each part.
ghost use Rattle.std.specs.Prelude.{◌≡◌, ◌≤◌, ◌<◌, All, IfOk, length, slice_index};
ghost use Rattle.crew_instance.specs.Draft.{rows_of};
ghost use Rattle.crew_terms.specs.Minutes.{IsListOf};
ghost use Rattle.crew_terms.specs.declared.TheConstants.{MOST_TASKS};
ghost use Rattle.part_cuts.specs.Divided.{AreLists, AreNumbers, IsDivision, HasNumber};

use crate::cuts::cuts_of;
use crate::quiet::work_time;
use crew_instance::{Instance, Task};
use std::alloc::{AllocError, Global};

/// How many minutes of the task's time lie in part `k` of those between the cuts.
fn minutes_within(task: &Task, cuts: &[usize], k: usize) -> usize
    requires { k ≤ length cuts.now }
{
    let (from, to) = work_time(task);
    let first = if k == 0 { 0 } else { cuts[k - 1] };
    let end = if k < cuts.len() { cuts[k] } else { usize::MAX };
    to.min(end).saturating_sub(from.max(first))
}

/// The part between the cuts in which most of the task's time lies.
fn part_of(task: &Task, cuts: &[usize]) -> usize
    ensures { result ≤ length cuts.now }
{
    let mut part = 0;
    let mut most = 0;
    for k in 0..cuts.len() + 1 {
        let minutes = minutes_within(task, cuts, k);
        if minutes > most {
            part = k;
            most = minutes;
        }
    }
    part
}

/// The part of each task.
fn numbers_of(alloc: Global, instance: &Instance, cuts: &[usize]) -> Result<Vec<usize>, AllocError>
    ensures { IfOk result (λ numbers.
        AreNumbers (length instance.now.tasks) (length cuts.now) numbers.items) }
{
    let mut numbers = Vec::with_capacity(alloc, instance.tasks())?;
    for j in 0..instance.tasks() as u32 {
        numbers.push(part_of(instance.task(j), cuts))?;
    }
    Ok(numbers)
}

/// The tasks of part `k`.
fn tasks_of(alloc: Global, numbers: &[usize], k: usize) -> Result<Vec<u32>, AllocError>
    requires { length numbers.now ≤ MOST_TASKS }
    ensures { IfOk result (λ tasks. IsListOf (HasNumber numbers.now k) tasks.items) }
{
    let mut tasks = Vec::new(alloc);
    for t in 0..numbers.len() {
        if numbers[t] == k {
            tasks.push(t as u32)?;
        }
    }
    Ok(tasks)
}

/// The tasks of each of so many parts.
fn gathered(alloc: Global, numbers: &[usize], parts: usize) -> Result<Vec<Vec<u32>>, AllocError>
    requires { length numbers.now ≤ MOST_TASKS }
    ensures { IfOk result (λ lists. AreLists numbers.now parts (rows_of lists.items)) }
{
    let mut lists = Vec::new(alloc);
    for k in 0..parts {
        lists.push(tasks_of(alloc, numbers, k)?)?;
    }
    Ok(lists)
}

/// The tasks of each part of the day, rising: each task stands in one part, that in which most of its time lies. The day is cut
/// where fewer than `few` tasks that need several teams can be at work, into parts of at least an hour. A part may be empty.
pub fn divided(alloc: Global, instance: &Instance, few: u32) -> Result<Vec<Vec<u32>>, AllocError>
    ensures { IfOk result (λ parts.
        IsDivision (length instance.now.tasks) (rows_of parts.items)) }
{
    // What always holds of the instance is known from here on.
    let _ = instance.tasks();
    let cuts = cuts_of(alloc, instance, few)?;
    let numbers = numbers_of(alloc, instance, &cuts)?;
    gathered(alloc, &numbers, cuts.len() + 1)
}
