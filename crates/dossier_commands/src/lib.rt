// The commands over dossiers: `check`, which writes a yes line for each good one, and `rosters`, which writes its roster.
#![tactic(auto)]

pub mod input;
pub mod kept;
pub mod laws;
pub mod output;
pub mod read;
pub mod texts;

pub use output::Output;
pub use read::{Ended, read_dossiers};
