// Searches from their start to their end.
use branch_tree::{LeafState, Node, Tree};
use column_arena::VecColumns;
use crew_fixtures::{far_gates, hardly_overlapping};
use crew_instance::unassigned;
use search_core::{DAY_EFFORT, solve};
use std::test::Fail;

/// Whether the tree is one bare leaf.
fn is_bare(tree: &Tree) -> bool {
    tree.len() == 1
        && match tree.node(0) {
            Node::Leaf { state, .. } => *state == LeafState::Bare,
            Node::Split(_) => false,
        }
}

#[test]
fn hardly_overlapping_shifts_are_split_once(rt: HostRuntime) -> Result<(), Fail> {
    let instance = hardly_overlapping(rt.alloc(), 480)?;
    let mut columns = VecColumns::new(rt.alloc());
    let outcome = solve(rt.alloc(), &instance, 3, None, &mut columns, DAY_EFFORT)?;
    assert_eq!(rt; (outcome.bound, unassigned(&outcome.plan)), (1, 1));
    assert_eq!(rt; (outcome.tree.splits(), outcome.causes.len()), (1, 1));
    Ok(())
}

#[test]
fn without_steps_the_root_stays_open(rt: HostRuntime) -> Result<(), Fail> {
    let instance = hardly_overlapping(rt.alloc(), 480)?;
    let mut columns = VecColumns::new(rt.alloc());
    let outcome = solve(rt.alloc(), &instance, 0, None, &mut columns, DAY_EFFORT)?;
    assert_eq!(rt; (outcome.bound, unassigned(&outcome.plan)), (0, 1));
    assert_eq!(rt; (outcome.tree.len(), is_bare(&outcome.tree)), (1, false));
    Ok(())
}

#[test]
fn where_all_is_assigned_the_root_is_bare(rt: HostRuntime) -> Result<(), Fail> {
    let instance = far_gates(rt.alloc())?;
    let mut columns = VecColumns::new(rt.alloc());
    let outcome = solve(rt.alloc(), &instance, 3, None, &mut columns, DAY_EFFORT)?;
    assert_eq!(rt; (outcome.bound, unassigned(&outcome.plan)), (0, 0));
    assert!(rt; is_bare(&outcome.tree) && outcome.causes.is_empty());
    Ok(())
}
