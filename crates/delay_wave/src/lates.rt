// Tasks that end late.
ghost use Rattle.std.specs.Prelude.{◌≡◌, ◌≢◌, ◌≤◌, ◌<◌, ◌↔◌, ℕ, IfOk, IsTrue, All, AllPairs, slice_index, vec_len};
ghost use Rattle.delay_wave.specs.Ends.{AreLates, MayFollow, told_end};

use crew_instance::Plan;
use std::alloc::{AllocError, Global};

/// The latest minute that may be told as the end of a task.
pub const LATEST_END: u32 = 5760;

/// A task ends late: not before the minute `end`.
#[derive(Clone, Copy, Debug, PartialEq, Eq)]
pub struct Late {
    pub task: u32,
    pub end: u32,
}

/// For each of so many tasks the end that is told, 0 where none is.
pub(crate) fn told_ends(alloc: Global, tasks: usize, lates: &[Late]) -> Result<Vec<u32>, AllocError>
    requires known { All (λ l. l.task < tasks) lates.now }
    requires differ { AllPairs (λ (a b : Late). a.task ≢ b.task) lates.now }
    ensures count { IfOk result (λ ends. vec_len ends ≡ tasks) }
    ensures ends { IfOk result (λ ends. (j : ℕ) → slice_index ends.items j ≡ told_end lates.now j) }
{
    let mut ends = vec![in alloc; 0; tasks]?;
    for late in lates {
        ends[late.task as usize] = late.end;
    }
    Ok(ends)
}

/// Whether none of these is about the task.
fn is_new(lates: &[Late], task: u32) -> bool
    ensures { IsTrue result ↔ All (λ l. l.task ≢ task) lates.now }
{
    lates.iter().all(|late| late.task != task)
}

/// Whether the task is assigned and none of those before, and its end in range.
fn may_follow(plan: &Plan, before: &[Late], late: Late) -> bool
    ensures { IsTrue result ↔ MayFollow plan.now before.now late }
{
    let known = (late.task as usize) < plan.len();
    known && plan.start(late.task).is_some() && late.end <= LATEST_END && is_new(before, late.task)
}

/// Whether the late tasks are assigned in the plan and told once each, with ends in range.
pub fn are_lates(plan: &Plan, lates: &[Late]) -> bool
    ensures { IsTrue result ↔ AreLates plan.now lates.now }
{
    for n in 0..lates.len() {
        if !may_follow(plan, &lates[..n], lates[n]) {
            return false;
        }
    }
    true
}
