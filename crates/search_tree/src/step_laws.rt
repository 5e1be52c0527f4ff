// Laws of steps by keys.
ghost use Rattle.std.specs.Prelude.{◌≡◌, ◌+◌, [], ℕ, ℤ, List};
ghost use Rattle.crew_terms.specs.Instance.{Instance};
ghost use Rattle.crew_terms.specs.Leaf.{Prices};
ghost use Rattle.crew_terms.specs.Limits.{Route, root_limits};
ghost use Rattle.crew_terms.specs.Plan.{Plan, unassigned_count};
ghost use Rattle.crew_terms.specs.Rules.{IsInstance};
ghost use Rattle.crew_terms.specs.Tree.{child};
ghost use Rattle.crew_terms.specs.declared.Choice.{Choice};
ghost use Rattle.crew_terms.specs.declared.Side.TheVariants.{First, Second};
ghost use Rattle.search_tree.specs.States.{AreBoundsIn, DecidesProved, HasLeaf, IsLeastCount, limits_of, state_in};
ghost use Rattle.search_tree.specs.Keyed.{IsKeyed, IsLeastKey, IsTaken, IsTurned, IsWaiting, Keyed};
ghost use Rattle.search_terms.specs.Proven.{PricesProve};
ghost use Rattle.search_terms.specs.Search.{Extends, Improves, IsBound, IsRun, IsSearchStep, IsSplit};
ghost use Rattle.search_terms.specs.SearchTree.{SplitCause};
ghost use Rattle.search_tree.specs.Numbered.{node_of, tree_of, way_of};
ghost use Rattle.search_tree.specs.declared.nodes.Content.TheVariants as content;

use crate::laws::{split_ways, splits_are_put, turns_are_splits, ways_are_of_nodes};
use search_laws::{leaves_have_potentials, run_is_sound, search_nodes, ways_are_leaves};

/// In every state that steps lead to: the limits of an open leaf's node come by turns that can be made, they are those of a node
/// of the search, and its prices are on required pairs alone.
pub fn run_leaves()
    ensures { (i : Instance) (budget left key n number : ℕ) (bound : ℤ) (p : ℕ → Prices)
        (c : ℕ → SplitCause) (plan : Plan)
        (k : Keyed) → IsInstance i → IsRun i budget (state_in p c plan left k) → IsKeyed k
        → IsWaiting k key n bound →
        (node_of k.nodes n).content ≡ content.Open number → HasLeaf i p c k n number }
{
    ways_are_of_nodes();
    turns_are_splits();
    ways_are_leaves();
    search_nodes();
    run_is_sound();
    leaves_have_potentials();
}

/// The bound of a state is what its best plan leaves unassigned where no leaf is open; and else the least of that and of what
/// the leaf of least bound proves.
pub fn least_bounds()
    ensures none { (i : Instance) (left : ℕ) (p : ℕ → Prices) (c : ℕ → SplitCause) (plan : Plan)
        (k : Keyed) → IsKeyed k →
        k.waits ≡ [] → IsBound i (state_in p c plan left k) (unassigned_count plan) }
    ensures some { (i : Instance) (left key n b : ℕ) (bound : ℤ) (p : ℕ → Prices)
        (c : ℕ → SplitCause) (plan : Plan) (k : Keyed) →
        IsKeyed k → AreBoundsIn (root_limits i) p c k → IsLeastKey k key → IsWaiting k key n bound →
        IsLeastCount i plan bound b → IsBound i (state_in p c plan left k) b }
{
    ways_are_of_nodes();
    ways_are_leaves();
}

/// Where an open leaf is closed by prices that prove what the best plan leaves, that is a step of the search.
pub fn steps_at_closed()
    ensures step { (i : Instance) (pivots left key n number : ℕ) (bound : ℤ) (p q : ℕ → Prices)
        (c d : ℕ → SplitCause)
        (plan better : Plan) (columns more : List Route) (old new : Keyed) → IsKeyed old
        → IsWaiting old key n bound →
        IsTaken old new key n number → tree_of q d old.nodes ≡ tree_of p c old.nodes
        → Improves i plan better →
        Extends (limits_of i old n) columns more
        → PricesProve (limits_of i old n) (q number) (unassigned_count better) →
        IsSearchStep i (way_of old.nodes n) pivots columns more (state_in p c plan (left + 1) old)
        (state_in q d better left new) }
    ensures bounds { (i : Instance) (key n number : ℕ) (bound : ℤ) (p q : ℕ → Prices)
        (c d : ℕ → SplitCause) (old new : Keyed) →
        IsKeyed old → IsKeyed new → IsWaiting old key n bound → IsTaken old new key n number →
        tree_of q d old.nodes ≡ tree_of p c old.nodes → AreBoundsIn (root_limits i) p c old
        → AreBoundsIn (root_limits i) q d new }
{
    ways_are_of_nodes();
    ways_are_leaves();
}

/// Where an open leaf is split for a cause that the columns earn, that is a step of the search.
pub fn steps_at_split()
    ensures step { (i : Instance) (pivots left key n own number cause : ℕ) (bound : ℤ)
        (bounds : ℤ × ℤ) (choice : Choice)
        (p q : ℕ → Prices) (c d : ℕ → SplitCause) (plan better : Plan) (columns more : List Route)
        (old new : Keyed) →
        IsKeyed old → IsWaiting old key n bound → (node_of old.nodes n).content ≡ content.Open own →
        IsTurned old new key n choice cause number bounds
        → tree_of q d old.nodes ≡ tree_of p c old.nodes →
        Improves i plan better → Extends (limits_of i old n) columns more →
        IsSplit (unassigned_count better) pivots more (limits_of i old n) (p own) (q number)
        (record { choice = choice; cause = d cause }) →
        IsSearchStep i (way_of old.nodes n) pivots columns more (state_in p c plan (left + 1) old)
        (state_in q d better left new) }
    ensures bounds { (i : Instance) (key n number cause : ℕ) (bound : ℤ) (bounds : ℤ × ℤ)
        (choice : Choice) (p q : ℕ → Prices)
        (c d : ℕ → SplitCause) (old new : Keyed) → IsKeyed old → IsKeyed new
        → IsWaiting old key n bound →
        IsTurned old new key n choice cause number bounds
        → tree_of q d old.nodes ≡ tree_of p c old.nodes →
        AreBoundsIn (root_limits i) p c old
        → DecidesProved (child (limits_of i old n) choice First) (q number) bounds.0 →
        DecidesProved (child (limits_of i old n) choice Second) (q number) bounds.1
        → AreBoundsIn (root_limits i) q d new }
{
    ways_are_of_nodes();
    ways_are_leaves();
    split_ways();
    splits_are_put();
}
