// Laws: what the tree of the nodes depends on.
ghost use Rattle.std.specs.Prelude.{◌≡◌, ◌≤◌, ◌<◌, ◌++◌, ◌∷◌, [], ℕ, ℤ, List};
ghost use Rattle.crew_terms.specs.Leaf.{Prices};
ghost use Rattle.crew_terms.specs.declared.Choice.{Choice};
ghost use Rattle.crew_terms.specs.declared.Side.TheVariants.{First, Second};
ghost use Rattle.node_queue.specs.Waits.{IsLeast};
ghost use Rattle.search_terms.specs.BestFirst.{IsDue};
ghost use Rattle.search_terms.specs.SearchTree.{SplitCause};
ghost use Rattle.search_tree.specs.Numbered.{node_of, root_node, split_at, tree_of, way_of, with_content};
ghost use Rattle.search_tree.specs.declared.nodes.Content.TheVariants as content;
ghost use Rattle.search_tree.specs.declared.nodes.Node.{Node as TreeNode};
ghost use Rattle.search_tree.specs.Aged.{leaves_of, leaves_without};
ghost use Rattle.search_tree.specs.Keyed.{IsKeyed, IsTaken, IsTurned, IsWaiting, Keyed};
ghost use Rattle.search_tree.specs.Numbers.{HaveNumbers};

use crate::laws::split_ways;

/// Where prices and causes of the numbers in use are the same, the tree is.
pub fn same_numbers_same_tree()
    ensures { (prices causes : ℕ) (p q : ℕ → Prices) (c d : ℕ → SplitCause) (nodes : List TreeNode)
        → 0 < prices →
        HaveNumbers prices causes nodes → ((k : ℕ) → k < prices → p k ≡ q k)
        → ((k : ℕ) → k < causes → c k ≡ d k) →
        tree_of p c nodes ≡ tree_of q d nodes }
{}

/// The numbers in use stay below their limits where a node is closed or split with such numbers.
pub fn numbers_stay()
    ensures root { (prices causes k : ℕ) → k < prices
        → HaveNumbers prices causes (root_node k ∷ []) }
    ensures closed { (prices causes n k : ℕ) (nodes : List TreeNode)
        → HaveNumbers prices causes nodes → k < prices →
        HaveNumbers prices causes (with_content nodes n (content.Closed k)) }
    ensures split { (prices causes n k cause : ℕ) (choice : Choice) (nodes : List TreeNode)
        → HaveNumbers prices causes nodes →
        k < prices → cause < causes → HaveNumbers prices causes (split_at nodes n choice cause k) }
    ensures more { (prices causes more_prices more_causes : ℕ) (nodes : List TreeNode)
        → prices ≤ more_prices → causes ≤ more_causes →
        HaveNumbers prices causes nodes → HaveNumbers more_prices more_causes nodes }
{}

/// The open leaves by age: the key of least bound is that of the oldest of least bound; where a leaf is closed, the others stay
/// in order; and where it is split, its first child comes behind them, and then its second.
pub fn leaves_keep_order()
    ensures due { (k : Keyed) (key n : ℕ) (bound : ℤ) → IsKeyed k → IsLeast k.waits key
        → IsWaiting k key n bound →
        IsDue (leaves_of k) (record { way = way_of k.nodes n; bound = bound })
        (leaves_without k key) }
    ensures taken { (old new : Keyed) (key n prices : ℕ) → IsKeyed old
        → IsTaken old new key n prices → leaves_of new ≡ leaves_without old key }
    ensures turned { (old new : Keyed) (key n cause prices : ℕ) (bound : ℤ) (choice : Choice)
        (bounds : ℤ × ℤ) → IsKeyed old → IsWaiting old key n bound →
        IsTurned old new key n choice cause prices bounds →
        leaves_of new ≡ leaves_without old key
        ++ record { way = way_of old.nodes n ++ First ∷ []; bound = bounds.0 }
        ∷ record { way = way_of old.nodes n ++ Second ∷ []; bound = bounds.1 } ∷ [] }
{
    split_ways();
}
