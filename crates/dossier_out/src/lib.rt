// The lines of jobs, of the frozen ones of an instance and of those of a plan, and the lines of a team's worth and potentials
// in a node: what dossiers and sheets are written by.
#![tactic(auto)]

mod jobs;
mod steps;
mod tables;
mod words;

pub use jobs::{put_frozen, put_plan};
pub use tables::put_table;
pub use words::number;
