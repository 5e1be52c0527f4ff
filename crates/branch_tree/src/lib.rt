// Branch trees in memory: their nodes in preorder, and their numbers.
#![tactic(auto)]

mod laws;
mod tree;

pub use crew_terms::Choice;
pub use laws::one_tree;
pub use tree::{LeafState, Node, Tree};
