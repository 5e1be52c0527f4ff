// The master problem of a node in exact numbers: its rows, their pivots, the routes that enter, and the numbers that they
// give.
#![tactic(auto)]

mod basics;
mod choosing;
mod duals;
mod master;
mod opening;
mod pivots;
mod places;
mod rounding;
mod routes;
mod running;
mod shares;
mod solved;

pub use master::Master;
pub use rounding::round_price;
pub use shares::Share;
pub use solved::{Added, Solved};
