// The commands over days: `apply`, which writes the instance of each round, and `day`, which writes a dossier of each.
#![tactic(auto)]

pub mod ended;
mod entries;
pub mod laws;
pub mod refused;
pub mod rounds;

pub use ended::{DayOutput, Ended};
pub use rounds::write_rounds;
