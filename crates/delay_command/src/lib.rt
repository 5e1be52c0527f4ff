// The command `delays`: what late work does to the plan of a dossier.
#![tactic(auto)]

pub mod command;
mod dossier;
pub mod laws;
mod tasks;

pub use command::write_delays;
