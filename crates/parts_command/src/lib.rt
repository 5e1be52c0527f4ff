// The command `parts-check`, which writes a yes line for each good bundle of an input.
#![tactic(auto)]

pub mod laws;
pub mod read;
pub mod texts;

pub use read::read_bundles;
