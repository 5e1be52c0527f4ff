// Where a reader of a branch tree stands: the splits above the node that is due, and what came before it.
#![tactic(auto)]

mod split;
mod walk;

pub use crew_terms::TreeCounts;
pub use node_limits::{Branch, Limits};
pub use split::is_cut;
pub use walk::Walk;
