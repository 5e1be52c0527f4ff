// What is wrong with a day, told: one line for each fault, with the line of the text and what to write, and what `apply` would say.
#![tactic(auto)]

mod apply;
mod hints;
mod read;
mod text;
mod told;

pub use day_faults::{Stop, StopCause};
pub use read::{Ended, explain};
pub use told::{Placed, Told};
