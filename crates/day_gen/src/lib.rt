// Days that a generator of random numbers draws.
#![tactic(auto)]

mod days;
mod draws;
mod laws;

pub use day_terms::Entry;
pub use days::make;
pub use laws::generated_days_are_taken;
