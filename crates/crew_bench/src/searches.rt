// A search over an instance, and its figures.
use crate::errors::BenchError;
use crate::figures::{Causes, Figures};
use branch_tree::{LeafState, Node, Tree};
use column_arena::VecColumns;
use crew_instance::{Instance, unassigned};
use crew_terms::MOST_NODES;
use search_core::{Cause, DAY_EFFORT, Why, solve};
use std::alloc::Global;

/// How many of the splits have each cause.
fn counted(causes: &[Cause]) -> Causes {
    let mut counts = Causes::default();
    for cause in causes {
        match cause.why {
            Why::Loose { .. } => counts.loose = counts.loose.saturating_add(1),
            Why::Overflow(_) => counts.overflow = counts.overflow.saturating_add(1),
            Why::Spent => counts.spent = counts.spent.saturating_add(1),
        }
    }
    counts
}

/// How many leaves of the tree are closed.
fn closed_leaves(tree: &Tree) -> usize {
    let mut count = 0usize;
    for n in 0..tree.len() {
        if let Node::Leaf { state, .. } = tree.node(n) {
            if *state == LeafState::Closed {
                count = count.saturating_add(1);
            }
        }
    }
    count
}

/// What a search of at most so many steps comes to.
pub fn searched(alloc: Global, instance: &Instance, nodes: u32) -> Result<Figures, BenchError> {
    let mut columns = VecColumns::new(alloc);
    let nodes = nodes.min(MOST_NODES);
    let outcome = solve(alloc, instance, nodes, None, &mut columns, DAY_EFFORT)?;
    Ok(Figures::Search {
        unassigned: unassigned(&outcome.plan),
        bound: outcome.bound,
        splits: outcome.tree.splits(),
        closed: closed_leaves(&outcome.tree),
        causes: counted(&outcome.causes),
    })
}
