// A day's state under changes, and the instance of any moment.
#![tactic(auto)]

mod changes;
mod checks;
mod desks;
mod faults;
mod job_laws;
mod jobs;
mod lists;
mod moments;
mod work;

pub use crew_instance::Instance;
pub use crew_terms::Name;
pub use day_terms::Entry;
pub use desks::Desk;
pub use faults::ChangeFault;
pub use job_laws::{first_clash_passes, first_fault_is_told, good_jobs_pass};
pub use jobs::PlannedJobs;
