// Whether an instance is a part of another, and of which tasks: places and teams, travel times, tasks by name and frozen jobs
// are compared. And whether parts have no task in common.
#![tactic(auto)]

mod jobs;
mod numbers;
mod restricts;
mod taken;
mod teams;
mod times;

pub use crew_instance::Instance;
pub use restricts::restriction;
pub use taken::Taken;
