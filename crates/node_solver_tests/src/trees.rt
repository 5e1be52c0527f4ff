// Trees whose nodes have numbers.
use crate::asserts::same;
use crew_terms::{Choice, MOST_NODES, Side};
use search_tree::{Branch, Content, Node, NumberedTree};
use std::alloc::{AllocError, Global};
use std::process::Abort;
use std::test::Fail;

/// Splits the node, if it is an open leaf, with a cause and prices of one number, and gives the number of its first child.
fn split_open(
    tree: &mut NumberedTree,
    n: u32,
    choice: Choice,
    number: u32,
) -> Result<Option<u32>, AllocError> {
    let count = tree.len();
    if n as usize >= count || count >= 2 * MOST_NODES as usize {
        return Ok(None);
    }
    match tree.node(n).content {
        Content::Open { .. } => Ok(Some(tree.split(n, choice, number, number)?)),
        Content::Closed { .. } | Content::Split { .. } => Ok(None),
    }
}

/// Closes the node, if it is an open leaf, with the prices of this number.
fn close_open(tree: &mut NumberedTree, n: u32, prices: u32) -> bool {
    if n as usize >= tree.len() {
        return false;
    }
    match tree.node(n).content {
        Content::Open { .. } => {
            tree.close(n, prices);
            true
        }
        Content::Closed { .. } | Content::Split { .. } => false,
    }
}

/// The node of this number, if there is one.
fn node_at(tree: &NumberedTree, n: u32) -> Option<Node> {
    if n as usize >= tree.len() {
        return None;
    }
    Some(tree.node(n))
}

/// The node has this above it, is on this side of it, and is this.
fn same_node(
    rt: &impl Abort,
    tree: &NumberedTree,
    n: u32,
    above: u32,
    side: Side,
    content: Content,
) {
    let node = Node {
        above,
        side,
        content,
    };
    same(rt, &node_at(tree, n), &Some(node));
}

/// The way to the node has these turns.
fn same_turns(
    rt: &impl Abort,
    alloc: Global,
    tree: &NumberedTree,
    n: u32,
    wanted: &[Branch],
) -> Result<(), Fail> {
    assert!(rt; (n as usize) < tree.len());
    same(rt, &tree.turns(alloc, n)?.as_slice(), &wanted);
    Ok(())
}

const CUT: Choice = Choice::Window { task: 0, cut: 435 };

const PAIR: Choice = Choice::Pair { team: 1, task: 2 };

/// The root is split, then its second child; of the two below that the first one is closed. A leaf that is no longer open
/// stays as it is.
#[test]
fn leaves_are_split_and_closed(rt: HostRuntime) -> Result<(), Fail> {
    let mut tree = NumberedTree::root(rt.alloc(), 5)?;
    same(&rt, &split_open(&mut tree, 0, CUT, 6)?, &Some(1));
    same(&rt, &split_open(&mut tree, 2, PAIR, 7)?, &Some(3));
    assert!(rt; close_open(&mut tree, 3, 8));
    same(&rt, &split_open(&mut tree, 3, CUT, 9)?, &None);
    same(&rt, &split_open(&mut tree, 0, PAIR, 9)?, &None);
    assert!(rt; !close_open(&mut tree, 2, 9));
    same(&rt, &tree.len(), &5);
    let cut = Content::Split {
        choice: CUT,
        cause: 6,
        first: 1,
    };
    let pair = Content::Split {
        choice: PAIR,
        cause: 7,
        first: 3,
    };
    same_node(&rt, &tree, 0, 0, Side::First, cut);
    same_node(&rt, &tree, 1, 0, Side::First, Content::Open { prices: 6 });
    same_node(&rt, &tree, 2, 0, Side::Second, pair);
    same_node(&rt, &tree, 3, 2, Side::First, Content::Closed { prices: 8 });
    same_node(&rt, &tree, 4, 2, Side::Second, Content::Open { prices: 7 });
    Ok(())
}

/// The way to the last leaf turns to the second side twice; that to the root has no turns.
#[test]
fn ways_have_turns(rt: HostRuntime) -> Result<(), Fail> {
    let mut tree = NumberedTree::root(rt.alloc(), 0)?;
    same(&rt, &split_open(&mut tree, 0, CUT, 0)?, &Some(1));
    same(&rt, &split_open(&mut tree, 2, PAIR, 0)?, &Some(3));
    let side = Side::Second;
    let turns = [Branch { choice: CUT, side }, Branch { choice: PAIR, side }];
    same_turns(&rt, rt.alloc(), &tree, 4, &turns)?;
    same_turns(&rt, rt.alloc(), &tree, 2, &turns[..1])?;
    same_turns(&rt, rt.alloc(), &tree, 0, &[])
}
