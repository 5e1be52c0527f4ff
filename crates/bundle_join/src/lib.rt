// Bundles, put together: the text of a day's dossier with those of its parts' dossiers. Where the parts' plans, joined, leave fewer
// tasks than the day's, a dossier of the joined plan takes the place of the day's.
#![tactic(auto)]

mod day;
mod first;
mod join;
mod judged;
mod kept;
mod out;
mod tally;

pub use day::Day;
pub use join::{JoinFault, Proves, put_joined};
pub use judged::{JudgedText, judge_text};
pub use kept::KeptText;
