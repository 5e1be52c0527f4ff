// The commands `parts`, `parts-cut` and `part`: a text for each good dossier of an input, made of the parts of its day.
#![tactic(auto)]

mod command;

pub use bundle_write::Job;
pub use command::{PiecesEnded, write_pieces};
