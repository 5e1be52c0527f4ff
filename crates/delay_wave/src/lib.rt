// When the tasks of a plan really begin, if some of them end late, teams keep the order of their tasks, and joint teams
// wait for the last.
#![tactic(auto)]

mod lates;
mod laws;
mod order;
mod steps;
mod waits;
mod waves;

pub use lates::{LATEST_END, Late, are_lates};
pub use laws::{chains_are_tight, earliest_is_one, waits_are_one};
pub use waits::{Wait, Waits};
pub use waves::wave;
