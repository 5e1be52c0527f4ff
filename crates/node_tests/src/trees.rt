// Branch trees in memory.
ghost use Rattle.std.specs.Prelude.{◌≡◌, ◌≤◌, ◌+◌, ◌∷◌, [], length, IfOk};
ghost use Rattle.branch_tree.specs.Trees.{IsPreorder};

use crate::asserts::same;
use branch_tree::{LeafState, Node, Tree};
use crew_fixtures::one_task;
use crew_terms::Choice;
use kept_prices::KeptPrices;
use node_limits::Limits;
use potentials::Prices;
use std::alloc::Global;
use std::test::Fail;

/// A leaf whose prices are all 0.
fn leaf(alloc: Global, limits: &Limits<'_>, state: LeafState) -> Result<Node, Fail>
    ensures { IfOk result (λ node. IsPreorder (node ∷ [])) }
{
    let zero = Prices::zero(alloc, limits)?;
    let prices = KeptPrices::of(alloc, limits, &zero)?;
    Ok(Node::Leaf { state, prices })
}

/// A split of which the first child is a split, and all other children are leaves.
fn two_splits(alloc: Global, limits: &Limits<'_>) -> Result<Vec<Node>, Fail>
    ensures { IfOk result (λ nodes. IsPreorder nodes.items × (length nodes.items ≡ 5)) }
{
    let closed = leaf(alloc, limits, LeafState::Closed)?;
    let open = leaf(alloc, limits, LeafState::Open)?;
    let bare = leaf(alloc, limits, LeafState::Bare)?;
    let nodes = vec![in alloc;
        Node::Split(Choice::Window { task: 1, cut: 420 }),
        Node::Split(Choice::Pair { team: 0, task: 1 }),
        closed,
        open,
        bare,
    ]?;
    Ok(nodes)
}

/// A chain of so many splits: each one's first child is an open leaf, and its second child the next split, and in the end a
/// closed leaf.
fn chain(alloc: Global, limits: &Limits<'_>, splits: u32) -> Result<Vec<Node>, Fail>
    requires { splits ≤ 1000 }
    ensures { IfOk result
        (λ nodes. IsPreorder nodes.items × (length nodes.items ≡ splits + splits + 1)) }
{
    let mut nodes = Vec::new(alloc);
    for task in 0..splits {
        nodes.push(Node::Split(Choice::Window { task, cut: 420 }))?;
        nodes.push(leaf(alloc, limits, LeafState::Open)?)?;
    }
    nodes.push(leaf(alloc, limits, LeafState::Closed)?)?;
    Ok(nodes)
}

/// Its splits, its closed leaves, its other leaves, and its depth.
fn numbers(tree: &Tree) -> [u32; 4] {
    [tree.splits(), tree.closed(), tree.left_open(), tree.depth()]
}

#[test]
fn counts_a_tree(rt: HostRuntime) -> Result<(), Fail> {
    let day = one_task(rt.alloc())?;
    let root = Limits::root(rt.alloc(), &day)?;
    let tree = Tree::whole(two_splits(rt.alloc(), &root)?);
    same(&rt, &numbers(&tree), &[2, 1, 2, 2]);
    assert!(rt; tree.len() == 5);
    same(
        &rt,
        &matches!(tree.node(1), Node::Split(Choice::Pair { team: 0, task: 1 })),
        &true,
    );
    same(
        &rt,
        &matches!(
            tree.node(3),
            Node::Leaf {
                state: LeafState::Open,
                ..
            }
        ),
        &true,
    );
    Ok(())
}

#[test]
fn counts_chains(rt: HostRuntime) -> Result<(), Fail> {
    let day = one_task(rt.alloc())?;
    let root = Limits::root(rt.alloc(), &day)?;
    let alone = Tree::whole(chain(rt.alloc(), &root, 0)?);
    same(&rt, &numbers(&alone), &[0, 1, 0, 0]);
    let long = Tree::whole(chain(rt.alloc(), &root, 1000)?);
    same(&rt, &numbers(&long), &[1000, 1, 1000, 1000]);
    Ok(())
}
