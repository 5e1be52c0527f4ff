// The lines of a leaf with prices: each is judged by the row of the table that is due.
#![tactic(auto)]

pub mod keys;
mod prices;
mod reader;
mod rows;
pub mod runs;

pub use reader::{Goal, LeafReader, LeafStep};
