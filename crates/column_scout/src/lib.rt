// The scout of columns: few routes at which a node's master comes to its optimum, found by a simplex method that only comes
// near to it, and prices near to the optimum's. What it hands over is legal whatever its numbers are.
#![tactic(auto)]

mod effort;
mod hand_over;
mod lines;
mod mixed;
mod numbers;
mod offers;
mod rounds;
mod rows;
mod scouting;
mod simplex;
mod variables;

pub use effort::{Effort, Leads};
pub use route_terms::Route;
pub use scouting::{Scouted, scout};
