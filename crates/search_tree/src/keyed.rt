// Trees whose open leaves wait under keys.
ghost use Rattle.std.specs.Prelude.{◌≡◌, ◌≢◌, ◌≤◌, ◌<◌, ◌+◌, ◌*◌, ◌++◌, ◌∷◌, [], ℕ, ℤ, Contains, length, slice_index, IfNone, IfOk, IfSome, OnErr, OnOk};
ghost use Rattle.crew_terms.specs.declared.TheConstants.{MOST_NODES};
ghost use Rattle.search_tree.specs.Numbered.{node_of};
ghost use Rattle.search_tree.specs.Ways.{turns_of};
ghost use Rattle.node_queue.specs.Waits.{IsLeast, keys_of};
ghost use Rattle.search_tree.specs.Keyed.{IsKey, IsKeyed, IsLeastKey, IsTaken, IsTurned, IsWaiting, keyed_root};

use crate::laws::splits_are_put;
use crate::nodes::{Content, Node};
use crate::trees::NumberedTree;
use crew_terms::Choice;
use node_limits::Branch;
use node_queue::Queue;
use std::alloc::{AllocError, Global};
use std::marker::Model;

/// An open leaf: its number, that of its prices, and its bound.
#[derive(Clone, Copy, Debug)]
pub struct OpenLeaf {
    pub node: u32,
    pub prices: u32,
    pub bound: i128,
}

/// The number of the prices of an open leaf.
fn prices_of(node: Node) -> u32
    requires { (prices : ℕ) × (node.content ≡ Content.Open prices) }
    ensures { node.content ≡ Content.Open result }
{
    match node.content {
        Content::Open { prices } => prices,
        Content::Closed { .. } | Content::Split { .. } => unreachable!(),
    }
}

/// The tree of a search of at most 100,000 splits, by numbered nodes, and its open leaves, each under a key with the bound
/// that its prices give. Prices and causes are numbers: whoever grows the tree keeps what they stand for.
///
/// In contracts: the list of the nodes, and what waits.
#[derive(Drop)]
pub struct KeyedTree {
    tree: NumberedTree,
    queue: Queue,
}

impl Model for KeyedTree {
    ghost use Rattle.search_tree.specs.Keyed.{Keyed, IsKeyed};

    ghost Value = { Keyed };

    ghost view = { λ a. record { nodes = a.tree; waits = a.queue } };

    ghost invariant = { λ a. IsKeyed (record { nodes = a.tree; waits = a.queue }) };
}

/// Lets two children wait, the first with this number and the second with the one behind. After want of memory the queue
/// is as before.
fn put_both(
    queue: &mut Queue,
    first: u32,
    bounds: (i128, i128),
) -> Result<(usize, usize), AllocError>
    requires { first < 2 * MOST_NODES }
    ensures waits { IfOk result (λ keys. queue.new ≡
        (queue.old ++ (keys.0, record { bound = bounds.0; item = first }) ∷ [])
        ++ (keys.1, record { bound = bounds.1; item = first + 1 }) ∷ []) }
    ensures fresh { IfOk result (λ keys. Contains (keys_of queue.old) keys.0 → ⊥) }
    ensures other { IfOk result (λ keys. Contains (keys_of queue.old) keys.1 → ⊥) }
    ensures differ { IfOk result (λ keys. keys.0 ≢ keys.1) }
    ensures err { OnErr result (queue.new ≡ queue.old) }
{
    let low = queue.put(bounds.0, first)?;
    match queue.put(bounds.1, first + 1) {
        Ok(high) => Ok((low, high)),
        Err(fault) => {
            queue.take(low);
            Err(fault)
        }
    }
}

impl KeyedTree {
    /// The tree of one open leaf, whose prices have this number and give this bound.
    pub fn root(alloc: Global, prices: u32, bound: i128) -> Result<KeyedTree, AllocError>
        ensures { IfOk result (λ k. (key : ℕ) × (k ≡ keyed_root key prices bound)) }
    {
        let tree = NumberedTree::root(alloc, prices)?;
        let mut queue = Queue::new(alloc);
        queue.put(bound, 0)?;
        // What always holds of the two is known from here on.
        let _ = (tree.len(), queue.len());
        Ok(KeyedTree { tree, queue })
    }

    /// How many open leaves there are.
    pub fn len(&self) -> usize
        ensures count { result ≡ length self.now.waits }
        ensures keyed { IsKeyed self.now }
    {
        self.queue.len()
    }

    /// How many nodes there are.
    pub fn nodes(&self) -> usize
        ensures count { result ≡ length self.now.nodes }
        ensures few { result ≤ 2 * MOST_NODES + 1 }
        ensures keyed { IsKeyed self.now }
    {
        self.tree.len()
    }

    /// The node of this number.
    pub fn node(&self, n: u32) -> Node
        requires { n < length self.now.nodes }
        ensures { result ≡ node_of self.now.nodes n }
    {
        self.tree.node(n)
    }

    /// The n-th key by age, from 0.
    pub fn key(&self, n: usize) -> usize
        requires { n < length self.now.waits }
        ensures key { result ≡ slice_index (keys_of self.now.waits) n }
        ensures waits { IsKey self.now result }
    {
        self.queue.key(n)
    }

    /// The key of the oldest open leaf of least bound; None exactly where there is none.
    pub fn least(&self) -> Option<usize>
        ensures none { IfNone result (self.now.waits ≡ []) }
        ensures oldest { IfSome result (IsLeast self.now.waits) }
        ensures waits { IfSome result (IsKey self.now) }
        ensures least { IfSome result (IsLeastKey self.now) }
    {
        // It is known from here on that no two wait under one key.
        let _ = self.queue.len();
        self.queue.least()
    }

    /// The open leaf under the key.
    pub fn leaf(&self, key: usize) -> OpenLeaf
        requires { IsKey self.now key }
        ensures waits { IsWaiting self.now key result.node result.bound }
        ensures prices { (node_of self.now.nodes result.node).content ≡ Content.Open result.prices }
        ensures keyed { IsKeyed self.now }
    {
        let node = self.queue.item(key).unwrap();
        let bound = self.queue.bound(key).unwrap();
        let prices = prices_of(self.tree.node(node));
        OpenLeaf {
            node,
            prices,
            bound,
        }
    }

    /// The turns from the root to the node of this number. AllocError where there is no memory.
    pub fn turns(&self, alloc: Global, n: u32) -> Result<Vec<Branch>, AllocError>
        requires { n < length self.now.nodes }
        ensures { IfOk result (λ turns. turns.items ≡ turns_of self.now.nodes n) }
    {
        self.tree.turns(alloc, n)
    }

    /// Closes the open leaf under the key, with the prices of this number. It takes no memory.
    pub fn close(&mut self, key: usize, prices: u32)
        requires { IsKey self.old key }
        ensures { (n : ℕ) (bound : ℤ) → IsWaiting self.old key n bound
            → IsTaken self.old self.new key n prices }
    {
        let n = self.queue.item(key).unwrap();
        self.tree.close(n, prices);
        self.queue.take(key);
        // What always holds of the two is known from here on.
        let _ = (self.tree.len(), self.queue.len());
    }

    /// Splits the open leaf under the key into two, with the prices of this number both, and these bounds. Where memory
    /// is wanting, all is as before.
    pub fn split(
        &mut self,
        key: usize,
        choice: Choice,
        cause: u32,
        prices: u32,
        bounds: (i128, i128),
    ) -> Result<(), AllocError>
        requires open { IsKey self.old key }
        requires room { length self.old.nodes < 2 * MOST_NODES }
        ensures ok { (n : ℕ) (bound : ℤ) → IsWaiting self.old key n bound →
            OnOk result (IsTurned self.old self.new key n choice cause prices bounds) }
        ensures err { OnErr result (self.new ≡ self.old) }
    {
        splits_are_put();
        let n = self.queue.item(key).unwrap();
        let first = self.tree.len() as u32;
        let (low, high) = put_both(&mut self.queue, first, bounds)?;
        if let Err(fault) = self.tree.split(n, choice, cause, prices) {
            self.queue.take(high);
            self.queue.take(low);
            return Err(fault);
        }
        self.queue.take(key);
        let _ = (self.tree.len(), self.queue.len());
        Ok(())
    }
}
