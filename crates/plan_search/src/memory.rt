// What a search remembers of tasks: how much they weigh, when they may go out again, and when they were tried last.

use crate::facts::Facts;
use std::alloc::{AllocError, Global};
use std::mem;

/// What a search remembers of a task.
#[derive(Clone, Copy)]
struct Memo {
    weight: u32,
    // The task may not go out before this iteration.
    held: u32,
    // When it was tried last to put the task where something had changed, by the clock of the orders.
    tried: u64,
    is_frozen: bool,
}

/// What a search remembers of all tasks, and the iteration that it makes.
#[derive(Drop)]
pub(crate) struct Memory {
    memos: Vec<Memo>,
    now: u32,
}

impl Memory {
    /// The memory of a search that begins, with these weights, those that are missing 1; AllocError where there is no memory.
    pub(crate) fn new(
        alloc: Global,
        facts: &Facts,
        weights: Option<&[u32]>,
    ) -> Result<Memory, AllocError> {
        let mut memory = Memory {
            memos: Vec::new(alloc),
            now: 0,
        };
        for j in 0..facts.tasks() {
            memory.memos.push(Memo {
                weight: weight_of(weights, j),
                held: 0,
                tried: 0,
                is_frozen: facts.is_frozen(j),
            })?;
        }
        Ok(memory)
    }

    /// Begins this iteration.
    pub(crate) fn begin(&mut self, now: u32) {
        self.now = now;
    }

    /// What it costs to take task `j` out, where it may go out.
    pub(crate) fn cost_out(&self, j: u32) -> Option<u32> {
        let memo = self.memos.get(j as usize)?;
        if memo.is_frozen || memo.held > self.now {
            return None;
        }
        Some(memo.weight)
    }

    /// Task `j` weighs more.
    pub(crate) fn add_weight(&mut self, j: u32) {
        if let Some(memo) = self.memos.get_mut(j as usize) {
            memo.weight = memo.weight.saturating_add(1);
        }
    }

    /// Task `j` may not go out for so many iterations.
    pub(crate) fn hold(&mut self, j: u32, iterations: usize) {
        if let Some(memo) = self.memos.get_mut(j as usize) {
            let iterations = iterations.min(u32::MAX as usize) as u32;
            memo.held = self.now.saturating_add(iterations);
        }
    }

    /// When task `j` was tried last; it is tried now.
    pub(crate) fn try_now(&mut self, j: u32, time: u64) -> u64 {
        match self.memos.get_mut(j as usize) {
            Some(memo) => mem::replace(&mut memo.tried, time),
            None => 0,
        }
    }

    /// All tasks are to be tried anew.
    pub(crate) fn forget_tries(&mut self) {
        for memo in &mut self.memos {
            memo.tried = 0;
        }
    }
}

// The weight of task `j`, at least 1.
fn weight_of(weights: Option<&[u32]>, j: u32) -> u32 {
    match weights {
        Some(weights) => weights.get(j as usize).copied().unwrap_or(1).max(1),
        None => 1,
    }
}
