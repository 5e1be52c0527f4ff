// Minutes at which a day is cut.
use crate::quiet::{is_joint, joint_tasks, work_time};
use crew_instance::Instance;
use std::alloc::{AllocError, Global};

/// The fewest minutes of a part.
const SHORTEST: usize = 60;

/// The most that cuts up to the next minute gain, behind these for the minutes before it. A cut gains as much as there are fewer
/// than `few` joint tasks across it.
fn next_gain(gains: &[u32], few: u32, across: u32) -> u32 {
    let m = gains.len();
    if m < SHORTEST {
        return 0;
    }
    let cut = gains[m - SHORTEST].saturating_add(few.saturating_sub(across));
    cut.max(gains[m - 1])
}

/// The most that cuts up to each minute gain.
fn gains_of(alloc: Global, across: &[u32], few: u32) -> Result<Vec<u32>, AllocError> {
    let mut gains = Vec::with_capacity(alloc, across.len())?;
    for n in across {
        let gain = next_gain(&gains, few, *n);
        gains.push(gain)?;
    }
    Ok(gains)
}

/// The cuts that gain the most, the latest first.
fn best_cuts(alloc: Global, gains: &[u32]) -> Result<Vec<usize>, AllocError> {
    let mut cuts = Vec::new(alloc);
    let mut m = gains.len().saturating_sub(SHORTEST);
    while m >= SHORTEST {
        if gains[m] == gains[m - 1] {
            m -= 1;
        } else {
            cuts.push(m)?;
            m -= SHORTEST;
        }
    }
    Ok(cuts)
}

/// Whether the middle of some joint task's time lies between the two minutes.
fn has_joint(instance: &Instance, from: usize, to: usize) -> bool {
    for j in 0..instance.tasks() as u32 {
        let task = instance.task(j);
        let (first, end) = work_time(task);
        let middle = first + (end.saturating_sub(first)) / 2;
        if is_joint(task) && from <= middle && middle < to {
            return true;
        }
    }
    false
}

/// The minutes at which the day is cut, rising: where fewer than `few` joint tasks can be at work across them, at least an hour from
/// each other. Before each cut a joint task stands, since what has none needs no cut.
pub(crate) fn cuts_of(
    alloc: Global,
    instance: &Instance,
    few: u32,
) -> Result<Vec<usize>, AllocError> {
    let across = joint_tasks(alloc, instance)?;
    let gains = gains_of(alloc, &across, few)?;
    let best = best_cuts(alloc, &gains)?;
    let mut cuts = Vec::new(alloc);
    let mut last = 0;
    for cut in best.iter().rev() {
        if has_joint(instance, last, *cut) {
            cuts.push(*cut)?;
            last = *cut;
        }
    }
    Ok(cuts)
}
