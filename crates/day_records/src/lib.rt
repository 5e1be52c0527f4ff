// A day's records: what the text of a day says, up to its first bad record.
#![tactic(auto)]

mod day;
mod kinds;
mod laws;
mod rows;
mod skills;
mod words;

pub use day::{Day, Entries, read_day};
pub use day_terms::{DayCause, Entry, RecordKind, Refused};
pub use laws::one_reading;
pub use words::RecordWords;
