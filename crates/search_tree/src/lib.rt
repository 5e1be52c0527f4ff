// The tree of a search, whose nodes have numbers and whose open leaves wait under keys: a step at a node touches that node
// alone.
#![tactic(auto)]

mod key_laws;
mod keyed;
mod laws;
mod nodes;
mod step_laws;
mod trees;

pub use crew_terms::{Choice, Side};
pub use key_laws::{leaves_keep_order, numbers_stay, same_numbers_same_tree};
pub use keyed::{KeyedTree, OpenLeaf};
pub use laws::{
    split_ways, splits_are_put, subtrees_are_grown, turns_are_splits, ways_are_of_nodes,
};
pub use node_limits::Branch;
pub use nodes::{Content, Node};
pub use step_laws::{least_bounds, run_leaves, steps_at_closed, steps_at_split};
pub use trees::NumberedTree;
