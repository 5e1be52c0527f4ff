// The minutes at which uses begin a task.
ghost use Rattle.std.specs.Prelude.{◌≡◌, ◌<◌, All, MatchOption, None, replicate, slice_index_or, ℕ};
ghost use Rattle.branch_choice.specs.Ends.{AreEndsAt, AreTogether, IsMiddle, widened_ends};
ghost use Rattle.branch_choice.specs.Rules.{HaveOneStart, IsUsesCut};
ghost use Rattle.branch_choice.specs.Uses.{IsPermittedUse};

use crate::uses::Use;
use crew_terms::MOST_TASKS;
use node_limits::Limits;

/// The least and the greatest minute at which uses begin a task.
#[derive(Clone, Copy)]
pub(crate) struct Ends {
    least: u32,
    greatest: u32,
}

/// The ends with one minute more.
fn widened(ends: Option<Ends>, start: u32) -> Ends
    ensures { result ≡ widened_ends ends start }
{
    match ends {
        Some(ends) => Ends {
            least: ends.least.min(start),
            greatest: ends.greatest.max(start),
        },
        None => Ends {
            least: start,
            greatest: start,
        },
    }
}

/// The ends of no task.
fn no_ends() -> [Option<Ends>; MOST_TASKS]
    ensures { result ≡ replicate MOST_TASKS None }
{
    [None; MOST_TASKS]
}

/// The ends of each task that has uses, in one pass over the uses.
fn ends_by_task(uses: &[Use]) -> [Option<Ends>; MOST_TASKS]
    requires { All (λ u. u.task < MOST_TASKS) uses.now }
    ensures { (j : ℕ) → j < MOST_TASKS → AreEndsAt uses.now j (slice_index_or result j None) }
{
    let mut ends = no_ends();
    for u in uses {
        let task = u.task as usize;
        ends[task] = Some(widened(ends[task], u.start));
    }
    ends
}

/// The cut halfway between ends that differ.
fn middle(ends: Option<Ends>) -> Option<u32>
    ensures { MatchOption result (AreTogether ends) (IsMiddle ends) }
{
    let ends = ends?;
    if ends.least < ends.greatest {
        Some(ends.least.midpoint(ends.greatest))
    } else {
        None
    }
}

/// The lowest task with uses at two minutes, and the cut between them.
pub(crate) fn uses_cut(limits: &Limits<'_>, uses: &[Use]) -> Option<(u32, u32)>
    requires { All (IsPermittedUse limits.now.limits) uses.now }
    ensures { MatchOption result (HaveOneStart uses.now)
        (λ found. IsUsesCut uses.now found.0 found.1) }
{
    let tasks = limits.instance().tasks();
    let ends = ends_by_task(uses);
    for task in 0..tasks {
        if let Some(cut) = middle(ends[task]) {
            return Some((task as u32, cut));
        }
    }
    None
}
