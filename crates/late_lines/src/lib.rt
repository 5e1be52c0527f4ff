// The lines before a dossier, each of which tells that a task ends late, and the line `dossier` after them.
#![tactic(auto)]

mod first_line;
mod halt;
pub mod laws;
mod read;

pub use first_line::{FirstLine, LateLine, MOST_LATES, read_first};
pub use halt::Halt;
pub use read::read_lates;
