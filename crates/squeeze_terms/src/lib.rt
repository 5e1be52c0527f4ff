// Minute prices: a joint task, which needs two teams or more, has a price for each minute of its window. What they bound,
// and the runs that find them.
#![tactic(auto)]

/// The most steps of a price run.
pub const MOST_STEPS: u32 = 1_000;
