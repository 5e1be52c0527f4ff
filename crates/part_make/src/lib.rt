// The instance of some of an instance's tasks: its places and teams, these tasks with their frozen jobs, and travel times by the
// shortest ways.
#![tactic(auto)]

mod jobs;
mod lists;
mod parts;
mod tables;

pub use crew_instance::Instance;
pub use parts::part_of;
