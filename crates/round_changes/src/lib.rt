// What is kept of a round, by names, and what is different in the next one.
#![tactic(auto)]

pub mod changes;
pub mod rounds;

pub use changes::{Change, Counts, change_between, change_of, count_changes, is_gone, job_named};
pub use rounds::{NamedJob, Round, is_task, note_round};
