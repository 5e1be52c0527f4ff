// All that is wrong with a day: each record that is refused, where it stands, why, and what to write in its place.
#![tactic(auto)]

mod desks;
mod faults;
mod forms;
mod names;
mod passes;
mod refused;
mod sheets;
mod stops;
mod ways;

pub use day_lines::Span;
pub use day_terms::RecordKind;
pub use faults::{Fate, Fault, FaultyRecord, Thing};
pub use forms::field_at;
pub use passes::{DayFaults, faults_of};
pub use stops::{Stop, StopCause};
