// How much tasks weigh that are left over.

use crate::draws::Draws;
use std::alloc::{AllocError, Global};

/// What a task weighs at first.
pub(crate) const ONE: u32 = 10_000;

// So much more a task weighs after each trial of a phase that leaves it over.
const GAIN: u32 = 300;

// A phase has so many trials; in the first of them nothing is learned.
const PHASE: u32 = 55_000;

const REST: u32 = 5_000;

// Where more tasks than these are left over, nothing is learned.
const MOST_LEARNED: usize = 12;

// Days of so many tasks and more are large. There it is learned more slowly, in longer phases.
const LARGE: usize = 200;

const GAIN_OF_LARGE: u32 = 100;

const PHASE_OF_LARGE: u32 = 105_000;

// On large days what is left over may weigh so much more in one of so many trials.
const RISES: usize = 10_000;

const RISE: u64 = 15_000;

/// The weights of tasks, and what is learned of them.
#[derive(Drop)]
pub(crate) struct Weights {
    weights: Vec<u32>,
    is_large: bool,
    // The trials of this phase so far.
    trials: u32,
}

impl Weights {
    /// Equal weights of so many tasks; AllocError where there is no memory.
    pub(crate) fn new(alloc: Global, tasks: usize) -> Result<Weights, AllocError> {
        Ok(Weights {
            weights: vec![in alloc; ONE; tasks]?,
            is_large: tasks >= LARGE,
            trials: 0,
        })
    }

    /// What task `j` weighs.
    pub(crate) fn of(&self, j: u32) -> u32 {
        self.weights.get(j as usize).copied().unwrap_or(ONE)
    }

    // The next phase begins, in which all weigh the same at first.
    fn begin_phase(&mut self) {
        self.trials = 0;
        for weight in &mut self.weights {
            *weight = ONE;
        }
    }

    // Each of these tasks weighs more.
    fn add(&mut self, tasks: &[u32]) {
        let gain = if self.is_large { GAIN_OF_LARGE } else { GAIN };
        for j in tasks {
            if let Some(weight) = self.weights.get_mut(*j as usize) {
                *weight = weight.saturating_add(gain);
            }
        }
    }

    /// A trial is over that left these tasks, where the best plan leaves so many.
    pub(crate) fn learn(&mut self, left: &[u32], least: usize) {
        self.trials = self.trials.saturating_add(1);
        let phase = if self.is_large { PHASE_OF_LARGE } else { PHASE };
        if self.trials >= phase {
            self.begin_phase();
        }
        if self.trials >= REST && least <= MOST_LEARNED {
            self.add(left);
        }
    }

    /// By how much what is left over may weigh more after a trial.
    pub(crate) fn rise(&self, draws: &mut Draws) -> u64 {
        if self.is_large && draws.below(RISES) == 0 {
            RISE
        } else {
            0
        }
    }
}
