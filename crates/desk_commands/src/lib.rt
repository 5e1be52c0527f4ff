// The commands of the desk over dossiers: `changes`, which tells what changed from each good one to the next, and `picture`, which
// draws the plan of each good one.
#![tactic(auto)]

pub mod output;
pub mod read;
pub mod texts;

pub use output::DeskOutput;
pub use read::{Ended, Refusal, read_desk};
