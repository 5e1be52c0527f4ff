// Trees of numbered nodes.
ghost use Rattle.std.specs.Prelude.{◌≡◌, ◌≢◌, ◌≤◌, ◌<◌, ◌+◌, ◌*◌, ◌++◌, ◌∷◌, [], ℕ, Option, None, Some, length, IfOk, IfSome, IfNone, OnErr, OnOk};
ghost use Rattle.crew_terms.specs.Branches.{LeafNode, SplitNode};
ghost use Rattle.crew_terms.specs.Leaf.{Prices};
ghost use Rattle.crew_terms.specs.declared.TheConstants.{MOST_NODES};
ghost use Rattle.search_terms.specs.SearchTree.{SearchTree, SplitCause, OpenLeaf, ClosedLeaf};
ghost use Rattle.search_terms.specs.Ways.{IsOpenAt, replaced};
ghost use Rattle.search_tree.specs.Numbered.{AreNumbered, IsOpenNode, leaf_below, node_of, root_node, split_at, tree_of, way_of, with_content};
ghost use Rattle.search_tree.specs.Ways.{choice_in, turns_of, IsSplitNode};

use crate::nodes::{Content, Node};
use crew_terms::{Choice, MOST_NODES, Side};
use node_limits::Branch;
use std::alloc::{AllocError, Global};
use std::marker::Model;

/// How the split divides its node.
fn choice_of(node: &Node) -> Choice
    requires { IsSplitNode node.now }
    ensures { result ≡ choice_in node.now.content }
{
    match node.content {
        Content::Split { choice, .. } => choice,
        Content::Open { .. } | Content::Closed { .. } => unreachable!(),
    }
}

/// The tree of a search of at most 100,000 splits, by numbered nodes; the root has the number 0. Prices and causes are
/// numbers too: whoever grows the tree keeps what they stand for. A leaf is closed or split without a look at others.
///
/// In contracts: the list of the nodes.
#[derive(Drop)]
pub struct NumberedTree {
    nodes: Vec<Node>,
}

impl Model for NumberedTree {
    ghost use Rattle.std.specs.Prelude.{List};
    ghost use Rattle.search_tree.specs.declared.nodes.Node.{Node as TreeNode};

    ghost Value = { List TreeNode };

    ghost use Rattle.search_tree.specs.Kept.{nodes_of, IsKept};

    ghost view = { nodes_of };

    ghost invariant = { IsKept };
}

/// Gives the node another content.
fn put_content(nodes: &mut Vec<Node>, n: usize, content: Content)
    requires { n < length nodes.old.items }
    ensures { nodes.new.items ≡ with_content nodes.old.items n content }
{
    let node = &mut nodes[n];
    node.content = content;
}

/// An open leaf on this side of the split above it.
fn open_below(above: u32, side: Side, prices: u32) -> Node
    ensures { result ≡ leaf_below above side prices }
{
    Node {
        above,
        side,
        content: Content::Open { prices },
    }
}

/// Puts two open leaves last, below the node; the nodes stay as they are where there is no memory.
fn put_children(nodes: &mut Vec<Node>, n: u32, prices: u32) -> Result<(), AllocError>
    ensures ok { OnOk result (nodes.new.items ≡
        nodes.old.items ++ leaf_below n Side.First prices ∷ leaf_below n Side.Second prices ∷ []) }
    ensures err { OnErr result (nodes.new.items ≡ nodes.old.items) }
{
    nodes.reserve(2)?;
    nodes.push(open_below(n, Side::First, prices)).unwrap();
    nodes.push(open_below(n, Side::Second, prices)).unwrap();
    Ok(())
}

impl NumberedTree {
    /// The tree of one open leaf with these prices.
    pub fn root(alloc: Global, prices: u32) -> Result<NumberedTree, AllocError>
        ensures { IfOk result (λ tree. tree ≡ root_node prices ∷ []) }
    {
        let mut nodes = Vec::with_capacity(alloc, 1)?;
        nodes.push(Node {
            above: 0,
            side: Side::First,
            content: Content::Open { prices },
        })?;
        Ok(NumberedTree { nodes })
    }

    /// How many nodes there are.
    pub fn len(&self) -> usize
        ensures count { result ≡ length self.now }
        ensures few { result ≤ 2 * MOST_NODES + 1 }
        ensures numbered { AreNumbered self.now }
    {
        self.nodes.len()
    }

    /// The node of this number.
    pub fn node(&self, n: u32) -> Node
        requires { n < length self.now }
        ensures { result ≡ node_of self.now n }
    {
        self.nodes[n as usize]
    }

    /// Closes an open leaf, with these prices. It takes no memory.
    pub fn close(&mut self, n: u32, prices: u32)
        requires leaf { IsOpenNode self.old n }
        ensures nodes { self.new ≡ with_content self.old n (Content.Closed prices) }
        ensures tree { (p : ℕ → Prices) (c : ℕ → SplitCause) →
            tree_of p c self.new ≡ replaced (tree_of p c self.old) (way_of self.old n)
            (LeafNode (ClosedLeaf (p prices))) }
        ensures ways { (m : ℕ) → m < length self.old → way_of self.new m ≡ way_of self.old m }
    {
        put_content(&mut self.nodes, n as usize, Content::Closed { prices });
    }

    /// Splits an open leaf into two, with these prices both, and gives the number of the first; the second has the one
    /// behind. Where memory is wanting, the tree is as before.
    pub fn split(
        &mut self,
        n: u32,
        choice: Choice,
        cause: u32,
        prices: u32,
    ) -> Result<u32, AllocError>
        requires leaf { IsOpenNode self.old n }
        requires room { length self.old < 2 * MOST_NODES }
        ensures first { IfOk result (λ first. first ≡ length self.old) }
        ensures nodes { OnOk result (self.new ≡ split_at self.old n choice cause prices) }
        ensures tree { (p : ℕ → Prices) (c : ℕ → SplitCause) → OnOk result (
            tree_of p c self.new ≡ replaced (tree_of p c self.old) (way_of self.old n)
            (SplitNode (record { choice = choice; cause = c cause })
            (LeafNode (OpenLeaf (p prices))) (LeafNode (OpenLeaf (p prices))))) }
        ensures ways { (m : ℕ) → m < length self.old
            → OnOk result (way_of self.new m ≡ way_of self.old m) }
        ensures err { OnErr result (self.new ≡ self.old) }
    {
        let first = self.nodes.len() as u32;
        put_children(&mut self.nodes, n, prices)?;
        let split = Content::Split {
            choice,
            cause,
            first,
        };
        put_content(&mut self.nodes, n as usize, split);
        Ok(first)
    }

    /// The turns from the root to the node of this number. AllocError where there is no memory.
    pub fn turns(&self, alloc: Global, n: u32) -> Result<Vec<Branch>, AllocError>
        requires { n < length self.now }
        ensures { IfOk result (λ turns. turns.items ≡ turns_of self.now n) }
    {
        let mut turns = Vec::new(alloc);
        let mut at = n as usize;
        while at > 0 {
            let node = self.nodes[at];
            let above = node.above as usize;
            turns.push(Branch {
                choice: choice_of(&self.nodes[above]),
                side: node.side,
            })?;
            at = above;
        }
        turns.reverse();
        Ok(turns)
    }
}
