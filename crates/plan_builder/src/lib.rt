// Plans that are legal and packed: made from nothing, and from a plan that is given.
#![tactic(auto)]

mod build;
mod place;
mod schedule;
mod uses;

pub use branch_choice::Use;
pub use build::{greedy, pack};
pub use crew_instance::Plan;
pub use uses::from_uses;
