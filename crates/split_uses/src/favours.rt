// How much more splits of single tasks count.
ghost use Rattle.std.specs.Prelude.{IfSome};
ghost use Rattle.crew_terms.specs.Limits.{Limits as NodeLimits};
ghost use Rattle.split_uses.specs.Permitted.{IsPermittedScored};

use crate::picks::Scored;
use crate::scale::times;
use std::alloc::{AllocError, Global};

// So many parts make one whole.
const PARTS: i128 = 256;

/// How much more than else a split of a task counts, in 1/256: by a window or by a pair.
#[derive(Drop)]
pub struct Favours {
    windows: Vec<u32>,
    pairs: Vec<u32>,
}

impl Favours {
    /// No split counts more; AllocError where there is no memory.
    pub fn none(alloc: Global, tasks: usize) -> Result<Favours, AllocError> {
        Ok(Favours {
            windows: vec![in alloc; 0; tasks]?,
            pairs: vec![in alloc; 0; tasks]?,
        })
    }

    /// Has splits of the task's window count more.
    pub fn favour_window(&mut self, task: u32, by: u32) {
        if let Some(favour) = self.windows.get_mut(task as usize) {
            *favour = favour.saturating_add(by);
        }
    }

    /// Has splits of the task's pairs count more.
    pub fn favour_pair(&mut self, task: u32, by: u32) {
        if let Some(favour) = self.pairs.get_mut(task as usize) {
            *favour = favour.saturating_add(by);
        }
    }

    /// Halves all favours.
    pub fn halve(&mut self) {
        for favour in &mut self.windows {
            *favour /= 2;
        }
        for favour in &mut self.pairs {
            *favour /= 2;
        }
    }

    /// The favour of the task's window.
    pub(crate) fn of_window(&self, task: u32) -> u32 {
        self.windows.get(task as usize).copied().unwrap_or(0)
    }

    /// The favour of the task's pairs.
    pub(crate) fn of_pair(&self, task: u32) -> u32 {
        self.pairs.get(task as usize).copied().unwrap_or(0)
    }
}

/// The same pick, which counts by so much more.
pub(crate) fn favoured(one: Option<Scored>, favour: u32) -> Option<Scored>
    ensures { (n : NodeLimits) → IfSome one (IsPermittedScored n)
        → IfSome result (IsPermittedScored n) }
{
    let one = one?;
    Some(Scored {
        pick: one.pick,
        gain: times(one.gain, PARTS + i128::from(favour), PARTS),
    })
}
