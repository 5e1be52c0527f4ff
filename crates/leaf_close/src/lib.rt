// What closes a decided node of the search.
#![tactic(auto)]

mod closings;
mod faults;
mod plans;
mod prices;
mod turns;

pub use closings::{Closing, close_decided};
