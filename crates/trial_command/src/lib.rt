// The command `trial`: a generated day is planned, its dossier is checked as it is written, and one line tells its numbers.
#![tactic(auto)]

mod check_sink;
mod feed;
mod laws;
mod line_front;
mod plan;
mod trial;
mod words;
mod written;

pub use trial::{TrialEnded, write_trial};
pub use words::Trial;
