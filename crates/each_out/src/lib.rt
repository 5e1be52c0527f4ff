// The texts of items and of pieces, written one after another.
#![tactic(auto)]

mod items;
mod pieces;

pub use items::{Writes, put_each, put_numbered};
pub use pieces::{Piece, put_pieces};
