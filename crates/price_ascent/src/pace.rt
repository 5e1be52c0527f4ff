// How long the steps of an ascent are, and when it ends.

use crew_terms::D;

/// The length of an ascent's steps, in 1/256 of what would close the gap to its goal in a straight line; it shrinks
/// where the bound doesn't rise (B. T. Polyak, Minimization of unsmooth functionals, 1969).
#[derive(Drop)]
pub(crate) struct Pace {
    step: u32,
    // Rounds between two looks at how the bound has risen, and those since the last look.
    block: u32,
    rounds: u32,
    // The greatest bounds of this block of rounds, and of the one before.
    here: i128,
    before: i128,
}

impl Pace {
    /// The pace of an ascent that begins with steps of this length, and looks at them after each block of so many rounds.
    pub(crate) fn new(step: u32, block: u32) -> Pace {
        Pace {
            step,
            block,
            rounds: 0,
            here: i128::MIN,
            before: i128::MIN,
        }
    }

    /// The length of a step, in 1/256; 0 where the ascent has ended.
    pub(crate) fn step(&self) -> u32 {
        self.step
    }

    /// Takes the bound of a round; a block of rounds that doesn't raise it shortens the steps by a quarter.
    pub(crate) fn take(&mut self, bound: i128) {
        self.here = self.here.max(bound);
        self.rounds = self.rounds.saturating_add(1);
        if self.rounds < self.block {
            return;
        }
        let least = self.before.saturating_add(i128::from(D) / 256);
        if self.here < least {
            self.step -= self.step.div_ceil(4);
        }
        self.before = self.here;
        self.here = i128::MIN;
        self.rounds = 0;
    }

    /// How far a round moves the prices: the gap from the bound to the goal, at least a 64th of a task, in 1/256 of a step.
    pub(crate) fn length(&self, goal: u32, bound: i128) -> i128 {
        let gap = (i128::from(goal) * i128::from(D)).saturating_sub(bound);
        gap.max(i128::from(D) / 64)
            .saturating_mul(i128::from(self.step))
    }
}
