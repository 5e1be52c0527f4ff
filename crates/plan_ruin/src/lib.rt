// Plans that leave fewer tasks unassigned, found by ruin and recreate: again and again some tasks near to one another go out of
// the orders of a few teams, and are put in again with those that were left over, where they fit best.
#![tactic(auto)]

mod draws;
mod effort;
mod facts;
mod holes;
mod kept;
mod moves;
mod orders;
mod picks;
mod places;
mod queue;
mod rebuilt;
mod recreate;
mod search;
mod walks;
mod weights;

pub use effort::Effort;
pub use rebuilt::{rebuild, rebuild_near};
