// The wave of delays over a plan.
ghost use Rattle.std.specs.Prelude.{◌≡◌, None, IfOk, replicate};
ghost use Rattle.crew_terms.specs.Legal.{IsLegal};
ghost use Rattle.delay_wave.specs.Ends.{AreLates};
ghost use Rattle.delay_wave.specs.Waits.{AreWaits};

use crate::lates::{Late, told_ends};
use crate::order::by_start;
use crate::steps::step;
use crate::waits::Waits;
use crew_instance::{Instance, Plan};
use std::alloc::{AllocError, Global};

/// Nothing for each of so many.
fn nothing<T: Drop>(alloc: Global, count: usize) -> Result<Vec<Option<T>>, AllocError>
    ensures { IfOk result (λ v. v.items ≡ replicate count None) }
{
    let mut all = Vec::with_capacity(alloc, count)?;
    for _ in 0..count {
        all.push(None)?;
    }
    Ok(all)
}

/// When each task of a legal plan really begins, if these tasks end late, each team keeps the order of its tasks, and
/// joint teams wait for the last: the earliest starts that fit. Shift ends are not looked at. The tasks are gone through by
/// planned start, and at each one the last task of each of its teams is read. AllocError where there is no memory.
pub fn wave(
    alloc: Global,
    instance: &Instance,
    plan: &Plan,
    lates: &[Late],
) -> Result<Waits, AllocError>
    requires legal { IsLegal instance.now plan.now }
    requires lates { AreLates plan.now lates.now }
    ensures { IfOk result (AreWaits instance.now plan.now lates.now) }
{
    let told = told_ends(alloc, plan.len(), lates)?;
    let turns = by_start(alloc, plan)?;
    let mut last = nothing(alloc, instance.teams())?;
    let mut waits = nothing(alloc, plan.len())?;
    for turn in &turns {
        let end = told[turn.task as usize];
        let teams = plan.teams(turn.task);
        step(instance, *turn, teams, end, &mut last, &mut waits);
    }
    Ok(Waits::of(waits))
}
