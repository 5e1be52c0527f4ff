// Planning again: the entries of a day in turn, and a dossier for each round.
#![tactic(auto)]

mod alone;
mod counts;
mod faults;
mod laws;
mod round;
mod session;

pub use alone::plan_alone;
pub use counts::Counts;
pub use faults::{Failure, SessionFault};
pub use session::{Done, Session};
