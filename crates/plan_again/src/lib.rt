// Plans that stay: the last plan, repaired for an instance that has changed since, and plans near to one that was there before.
#![tactic(auto)]

mod begun;
mod near;
mod repaired;

pub use begun::{Effort, first_plan};
pub use near::nearer;
pub use repaired::repair;
