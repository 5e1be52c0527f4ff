// Plans that leave fewer tasks unassigned, found by search over the orders in which teams do their tasks.
#![tactic(auto)]

mod bettered;
mod draws;
mod facts;
mod memory;
mod moves;
mod orders;
mod picks;
mod places;
mod search;
mod walks;
mod weights;

pub use bettered::{Effort, better};
pub use weights::{WEIGHT_OF_PRICES, weights_of};
