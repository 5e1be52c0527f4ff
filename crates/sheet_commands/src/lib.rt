// The command `squeeze-check`, which writes a yes line for each good sheet of an input.
#![tactic(auto)]

pub mod input;
pub mod laws;
pub mod read;

pub use read::read_sheets;
