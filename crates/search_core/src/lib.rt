// The search by branch and price: its open nodes are taken in any order, and what it comes to is sound.
#![tactic(auto)]

mod begun;
mod causes;
mod closing;
mod effort;
mod finding;
mod handing;
mod laws;
mod outlines;
mod scripted;
mod searches;
mod settling;
mod solving;
mod starts;
mod stepping;
mod steps;

pub use causes::{Cause, Outcome};
pub use crew_instance::{Instance, Plan};
pub use effort::{DAY_EFFORT, Effort, MANY_TASKS, RebuildEffort, ScriptEffort};
pub use laws::{key_steps_improve, outcomes_are_searched};
pub use node_solver::{AscentEffort, ScoutEffort, Why};
pub use searches::Search;
pub use solving::solve;
