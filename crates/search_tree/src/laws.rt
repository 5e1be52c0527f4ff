// Laws: numbers, ways and the tree that the nodes come to.
ghost use Rattle.std.specs.Prelude.{◌≡◌, ◌<◌, ◌+◌, ◌++◌, ◌∷◌, [], ℕ, List, Some, length};
ghost use Rattle.crew_terms.specs.Leaf.{Prices};
ghost use Rattle.crew_terms.specs.Limits.{Limits};
ghost use Rattle.crew_terms.specs.declared.Choice.{Choice};
ghost use Rattle.crew_terms.specs.declared.Side.{Side};
ghost use Rattle.crew_terms.specs.declared.Side.TheVariants.{First, Second};
ghost use Rattle.search_terms.specs.SearchTree.{SplitCause};
ghost use Rattle.search_terms.specs.Ways.{IsOpenAt, limits_at, prices_at};
ghost use Rattle.search_tree.specs.Numbered.{AreNumbered, HasSplit, IsChild, IsOpenNode, child_of, grown, node_of, split_at, subtree, tree_of, way_of};
ghost use Rattle.node_limits.specs.Walks.{CanBranch, limits_after};
ghost use Rattle.search_tree.specs.Ways.{AreSplits, turns_of};
ghost use Rattle.search_tree.specs.declared.nodes.Content.TheVariants as content;
ghost use Rattle.search_tree.specs.declared.nodes.Node.{Node as TreeNode};

/// The open leaves of the tree are the open nodes, each at the end of its way, with the prices of its number; no two nodes
/// have one way; and the limits at the end of a node's way are those after its turns.
pub fn ways_are_of_nodes()
    ensures leads { (p : ℕ → Prices) (c : ℕ → SplitCause) (nodes : List TreeNode) (n prices : ℕ)
        → AreNumbered nodes →
        n < length nodes → (node_of nodes n).content ≡ content.Open prices
        → IsOpenAt (tree_of p c nodes) (way_of nodes n) }
    ensures prices { (p : ℕ → Prices) (c : ℕ → SplitCause) (nodes : List TreeNode) (n prices : ℕ)
        → AreNumbered nodes →
        n < length nodes → (node_of nodes n).content ≡ content.Open prices →
        prices_at (tree_of p c nodes) (way_of nodes n) ≡ p prices }
    ensures only { (p : ℕ → Prices) (c : ℕ → SplitCause) (nodes : List TreeNode) (way : List Side)
        → AreNumbered nodes →
        IsOpenAt (tree_of p c nodes) way → (n : ℕ) × IsOpenNode nodes n × (way_of nodes n ≡ way) }
    ensures one { (nodes : List TreeNode) (n m : ℕ) → AreNumbered nodes → n < length nodes
        → m < length nodes →
        way_of nodes n ≡ way_of nodes m → n ≡ m }
    ensures limits { (p : ℕ → Prices) (c : ℕ → SplitCause) (nodes : List TreeNode) (n : ℕ)
        (limits : Limits) →
        AreNumbered nodes → n < length nodes →
        limits_at limits (tree_of p c nodes) (way_of nodes n)
        ≡ limits_after limits (turns_of nodes n) }
{}

/// The two leaves that a split puts last are its children: their ways go on from its own.
pub fn split_ways()
    ensures first { (nodes : List TreeNode) (n cause prices : ℕ) (choice : Choice)
        → AreNumbered nodes → IsOpenNode nodes n →
        way_of (split_at nodes n choice cause prices) (length nodes)
        ≡ way_of nodes n ++ First ∷ [] }
    ensures second { (nodes : List TreeNode) (n cause prices : ℕ) (choice : Choice)
        → AreNumbered nodes → IsOpenNode nodes n →
        way_of (split_at nodes n choice cause prices) (length nodes + 1)
        ≡ way_of nodes n ++ Second ∷ [] }
{}

/// The turns to each node can be made one after the other, where each split of the tree is one of its node.
pub fn turns_are_splits()
    ensures { (p : ℕ → Prices) (c : ℕ → SplitCause) (nodes : List TreeNode) (n : ℕ)
        (limits : Limits) → AreNumbered nodes →
        n < length nodes → AreSplits limits (tree_of p c nodes)
        → CanBranch limits (turns_of nodes n) }
{}

/// The tree from a node on is made of its content and of the trees from its children on; these come behind it.
pub fn subtrees_are_grown()
    ensures grown { (p : ℕ → Prices) (c : ℕ → SplitCause) (nodes : List TreeNode) (n : ℕ)
        → AreNumbered nodes → n < length nodes →
        subtree p c nodes n ≡ grown p c (node_of nodes n).content (subtree p c nodes) }
    ensures children { (nodes : List TreeNode) (n m : ℕ) (side : Side) → AreNumbered nodes
        → n < length nodes →
        child_of (node_of nodes n).content side ≡ Some m → IsChild nodes n side m }
{}

/// Where a leaf is split, it becomes a split, two open leaves come last, and the other nodes stay.
pub fn splits_are_put()
    ensures { (nodes : List TreeNode) (n cause prices : ℕ) (choice : Choice) → n < length nodes →
        HasSplit nodes (split_at nodes n choice cause prices) n choice cause prices }
{}
