// An audit: whether dossiers belong to the rounds of a day.
#![tactic(auto)]

mod audit;
mod kept;

pub use audit::{Audit, Fit, Next};
pub use cert_checker::Checker;
pub use flight_changes::{ChangeFault, Entry};
