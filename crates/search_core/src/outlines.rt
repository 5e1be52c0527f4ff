// Trees of numbered nodes in preorder.
ghost use Rattle.std.specs.Prelude.{◌≡◌, ◌≤◌, ◌<◌, ℕ, List, All, IfOk, OnOk, length, map};
ghost use Rattle.branch_tree.specs.Trees.{preorder};
ghost use Rattle.crew_terms.specs.Branches.{splits};
ghost use Rattle.crew_terms.specs.Leaf.{Prices as LeafPrices};
ghost use Rattle.crew_terms.specs.Limits.{Limits as NodeLimits};
ghost use Rattle.crew_terms.specs.declared.TheConstants.{MOST_NODES};
ghost use Rattle.search_tree.specs.Numbers.{HasNumber, HaveNumbers};
ghost use Rattle.potentials.specs.Prices.{ArePricesOf};
ghost use Rattle.search_terms.specs.SearchTree.{SplitCause, causes};
ghost use Rattle.search_tree.specs.Numbered.{tree_of};
ghost use Rattle.search_core.specs.Outline.{outline, outline_with, price_at};
ghost use Rattle.search_core.specs.Visited.{HasChildren, HasPricesOf, IsVisited, bare_number, node_in};

use branch_tree::{LeafState, Node, Tree};
use kept_prices::KeptPrices;
use search_tree::{Content, KeyedTree, subtrees_are_grown};
use std::alloc::{AllocError, Global};

/// A tree with the prices of its leaves, and the numbers of the causes of its splits in preorder.
#[derive(Drop)]
pub(crate) struct Outline {
    pub(crate) tree: Tree,
    pub(crate) causes: Vec<u32>,
}

/// A leaf with the prices of this number, which it shares.
fn leaf_at(prices: &[KeptPrices], number: u32, state: LeafState) -> Result<Node, AllocError>
    requires { number < length prices.now }
    ensures node { IfOk result (λ node. node ≡ Node.Leaf state (price_at prices.now number)) }
    ensures prices { (n : NodeLimits) → All (ArePricesOf n) prices.now
        → IfOk result (HasPricesOf n) }
{
    let prices = prices[number as usize].share()?;
    Ok(Node::Leaf { state, prices })
}

/// Puts a node last, with its cause if it is a split, and lets its children be due, the first of them first.
fn visit(
    prices: &[KeptPrices],
    content: Content,
    due: &mut Vec<u32>,
    nodes: &mut Vec<Node>,
    causes: &mut Vec<u32>,
) -> Result<(), AllocError>
    requires number { (most : ℕ) × HasNumber (length prices.now) most content }
    requires children { HasChildren content }
    ensures visited { OnOk result (IsVisited (price_at prices.now) content due.old.items
        due.new.items nodes.old.items nodes.new.items
        causes.old.items causes.new.items) }
    ensures prices { (n : NodeLimits) → All (ArePricesOf n) prices.now
        → OnOk result (HasPricesOf n (node_in (price_at prices.now) content)) }
{
    match content {
        Content::Open { prices: number } => {
            nodes.push(leaf_at(prices, number, LeafState::Open)?)?;
        }
        Content::Closed { prices: number } => {
            nodes.push(leaf_at(prices, number, LeafState::Closed)?)?;
        }
        Content::Split {
            choice,
            cause,
            first,
        } => {
            nodes.push(Node::Split(choice))?;
            causes.push(cause)?;
            due.push(first + 1)?;
            due.push(first)?;
        }
    }
    Ok(())
}

/// The tree in preorder, with the prices of its leaves, and the numbers of its causes. AllocError where there is no memory.
fn outline_of(
    alloc: Global,
    keyed: &KeyedTree,
    prices: &[KeptPrices],
) -> Result<Outline, AllocError>
    requires numbers { (most : ℕ) × HaveNumbers (length prices.now) most keyed.now.nodes }
    requires few { (p : ℕ → LeafPrices) (c : ℕ → SplitCause)
        → splits (tree_of p c keyed.now.nodes) ≤ MOST_NODES }
    ensures tree { (c : ℕ → SplitCause) → IfOk result
        (λ o. o.tree ≡ preorder (outline (tree_of (price_at prices.now) c keyed.now.nodes))) }
    ensures causes { (p : ℕ → LeafPrices) (c : ℕ → SplitCause)
        → IfOk result (λ o. map c o.causes.items ≡ causes (tree_of p c keyed.now.nodes)) }
    ensures known { (most : ℕ) → HaveNumbers (length prices.now) most keyed.now.nodes
        → IfOk result (λ o. All (λ k. k < most) o.causes.items) }
    ensures prices { (n : NodeLimits) → All (ArePricesOf n) prices.now
        → IfOk result (λ o. All (HasPricesOf n) o.tree) }
{
    subtrees_are_grown();
    // The nodes are numbered, and few.
    let _ = keyed.nodes();
    let mut nodes = Vec::new(alloc);
    let mut causes = Vec::new(alloc);
    let mut due = Vec::with_capacity(alloc, 1)?;
    due.push(0)?;
    while let Some(n) = due.pop() {
        visit(
            prices,
            keyed.node(n).content,
            &mut due,
            &mut nodes,
            &mut causes,
        )?;
    }
    let tree = Tree::whole(nodes);
    Ok(Outline { tree, causes })
}

/// The number of the prices of a leaf that is open and is to be bare.
fn bare_number(bare: bool, content: Content) -> Option<u32>
    ensures { result ≡ bare_number bare content }
{
    match content {
        Content::Open { prices } => bare.then_some(prices),
        Content::Closed { .. } | Content::Split { .. } => None,
    }
}

/// The tree in preorder, with the prices of its leaves, and the numbers of its causes; a root that is an open leaf is bare, if
/// so it is told. AllocError where there is no memory.
pub(crate) fn outline_with(
    alloc: Global,
    keyed: &KeyedTree,
    prices: &[KeptPrices],
    bare: bool,
) -> Result<Outline, AllocError>
    requires numbers { (most : ℕ) × HaveNumbers (length prices.now) most keyed.now.nodes }
    requires few { (p : ℕ → LeafPrices) (c : ℕ → SplitCause)
        → splits (tree_of p c keyed.now.nodes) ≤ MOST_NODES }
    ensures tree { (c : ℕ → SplitCause) → IfOk result
        (λ o. o.tree ≡ preorder (outline_with bare
        (tree_of (price_at prices.now) c keyed.now.nodes))) }
    ensures causes { (p : ℕ → LeafPrices) (c : ℕ → SplitCause)
        → IfOk result (λ o. map c o.causes.items ≡ causes (tree_of p c keyed.now.nodes)) }
    ensures known { (most : ℕ) → HaveNumbers (length prices.now) most keyed.now.nodes
        → IfOk result (λ o. All (λ k. k < most) o.causes.items) }
    ensures prices { (n : NodeLimits) → All (ArePricesOf n) prices.now
        → IfOk result (λ o. All (HasPricesOf n) o.tree) }
{
    subtrees_are_grown();
    // The nodes are numbered, and few.
    let _ = keyed.nodes();
    let outline = outline_of(alloc, keyed, prices)?;
    let Some(number) = bare_number(bare, keyed.node(0).content) else {
        return Ok(outline);
    };
    let root = leaf_at(prices, number, LeafState::Bare)?;
    let tree = Tree::whole(vec![in alloc; root]?);
    Ok(Outline {
        tree,
        causes: outline.causes,
    })
}
