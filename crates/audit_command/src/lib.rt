// The command `audit`: reads a day and behind it dossiers, and tells whether they belong to its rounds.
#![tactic(auto)]

pub mod day_part;
pub mod ended;
pub mod event;
pub mod laws;
pub mod rounds;
pub mod texts;

pub use ended::{Ended, audit_day};
pub use event::Event;
