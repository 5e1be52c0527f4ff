// Branch trees in memory.
ghost use Rattle.std.specs.Prelude.{◌≡◌, ◌≤◌, ◌<◌, ◌+◌, ◌*◌, length, reverse, slice_index_or};
ghost use Rattle.crew_terms.specs.Branches.{depth, splits};
ghost use Rattle.crew_terms.specs.declared.TheConstants.{MOST_NODES};
ghost use Rattle.branch_tree.specs.Trees.{AreCountsOf, IsCountIn, IsPreorder, closed, left_open, state_of, with_leaf};
ghost use Rattle.branch_tree.specs.Levels.{next_node};

use arrayvec::ArrayVec;
use crew_terms::{Choice, MOST_NODES, TreeCounts};
use kept_prices::KeptPrices;
use std::marker::Model;

// The most splits above a leaf.
const MOST_LEVELS: usize = MOST_NODES as usize;

/// What a leaf claims. No call of this crate tests it.
#[derive(Clone, Copy, Debug, PartialEq, Eq)]
pub enum LeafState {
    /// It claims nothing, and its prices do not count.
    Bare,
    /// It claims that its prices prove a bound.
    Open,
    /// It claims that its prices prove the bound, and as many unassigned tasks as a plan has.
    Closed,
}

/// A node of a branch tree: a split, or a leaf with what it claims and its prices, at rest. A bare leaf has prices too.
#[derive(Drop)]
pub enum Node {
    Split(Choice),
    Leaf {
        state: LeafState,
        prices: KeptPrices,
    },
}

/// A branch tree of at most 100,000 splits: its nodes in preorder, so that the first child of a split comes
/// right after it, and the second child after all of the first. What its leaves claim is not proved.
#[derive(Drop)]
pub struct Tree {
    nodes: Vec<Node>,
    counts: TreeCounts,
}

impl Model for Tree {
    ghost use Rattle.std.specs.Prelude.{List};
    ghost use Rattle.branch_tree.specs.declared.tree.Node.{Node as TreeNode};

    ghost Value = { List TreeNode };

    ghost use Rattle.branch_tree.specs.Kept.{nodes_of, IsKept};

    ghost view = { nodes_of };

    ghost invariant = { IsKept };
}

/// The numbers with one more leaf, below so many splits.
fn with_leaf(counts: TreeCounts, state: LeafState, level: u32) -> TreeCounts
    requires closed { counts.closed ≤ 2 * MOST_NODES }
    requires left_open { counts.left_open ≤ 2 * MOST_NODES }
    ensures { result ≡ with_leaf state level counts }
{
    let mut counts = counts;
    match state {
        LeafState::Closed => counts.closed += 1,
        LeafState::Bare | LeafState::Open => counts.left_open += 1,
    }
    counts.depth = counts.depth.max(level);
    counts
}

/// What the node claims, if it is a leaf.
fn state_of(node: &Node) -> Option<LeafState>
    ensures { result ≡ state_of node.now }
{
    match node {
        Node::Split(_) => None,
        Node::Leaf { state, .. } => Some(*state),
    }
}

/// Goes on behind a node that is whole: the innermost split that is in its first child gets its second one.
fn go_on(above: &mut ArrayVec<bool, MOST_LEVELS>)
    ensures { reverse above.new.items ≡ next_node (reverse above.old.items) }
{
    for _ in 0..above.len() {
        if let Some(false) = above.pop() {
            above.push(true);
            return;
        }
    }
}

/// The numbers of the tree with these nodes.
fn counts_of(nodes: &[Node]) -> TreeCounts
    requires whole { IsPreorder nodes.now }
    requires few { length nodes.now ≤ 2 * MOST_NODES + 1 }
    ensures { AreCountsOf nodes.now result }
{
    // For each split above the node that is due, whether the node is in its second child.
    let mut above = ArrayVec::<bool, MOST_LEVELS>::new();
    let mut counts = TreeCounts {
        splits: 0,
        closed: 0,
        left_open: 0,
        depth: 0,
    };
    for node in nodes {
        match state_of(node) {
            None => {
                counts.splits += 1;
                above.push(false);
            }
            Some(state) => {
                counts = with_leaf(counts, state, above.len() as u32);
                go_on(&mut above);
            }
        }
    }
    counts
}

impl Tree {
    /// The tree with these nodes in preorder. It takes no memory.
    pub fn whole(nodes: Vec<Node>) -> Tree
        requires whole { IsPreorder nodes.items }
        requires few { length nodes.items ≤ 2 * MOST_NODES + 1 }
        ensures { result ≡ nodes.items }
    {
        let counts = counts_of(&nodes);
        Tree { nodes, counts }
    }

    /// How many nodes there are.
    pub fn len(&self) -> usize
        ensures count { result ≡ length self.now }
        ensures few { result ≤ 2 * MOST_NODES + 1 }
        ensures whole { IsPreorder self.now }
    {
        self.nodes.len()
    }

    /// The node at the place `n` in preorder, from 0.
    pub fn node(&self, n: usize) -> &Node
        requires { n < length self.now }
        ensures { result.now ≡ slice_index_or self.now n result.now }
    {
        &self.nodes[n]
    }

    /// How many splits there are.
    pub fn splits(&self) -> u32
        ensures number { IsCountIn splits self.now result }
        ensures few { result ≤ MOST_NODES }
    {
        self.counts.splits
    }

    /// How many leaves are closed.
    pub fn closed(&self) -> u32
        ensures number { IsCountIn closed self.now result }
        ensures few { result ≤ MOST_NODES + 1 }
    {
        self.counts.closed
    }

    /// How many leaves are bare or open.
    pub fn left_open(&self) -> u32
        ensures number { IsCountIn left_open self.now result }
        ensures few { result ≤ MOST_NODES + 1 }
    {
        self.counts.left_open
    }

    /// The most splits that are above a leaf.
    pub fn depth(&self) -> u32
        ensures number { IsCountIn depth self.now result }
        ensures few { result ≤ MOST_NODES }
    {
        self.counts.depth
    }
}
