// What is written of parts that are proved is a good dossier.
ghost use Rattle.std.specs.Prelude.{◌≡◌, ◌∷◌, [], ℕ};
ghost use Rattle.crew_terms.specs.Branches.{LeafNode};
ghost use Rattle.crew_terms.specs.Instance.{Instance};
ghost use Rattle.crew_terms.specs.Leaf.{Prices, zero_prices};
ghost use Rattle.crew_terms.specs.Limits.{Limits, root_limits};
ghost use Rattle.crew_terms.specs.Rules.{IsInstance};
ghost use Rattle.branch_tree.specs.Trees.{preorder};
ghost use Rattle.branch_tree.specs.declared.tree.LeafState.TheVariants as states;
ghost use Rattle.dossier_terms.specs.Dossier.{Dossier, IsGood, Leaf, prices_of};
ghost use Rattle.cert_write.specs.Given.{Given, IsPriced};
ghost use Rattle.cert_write.specs.Dossiers.{IsDossierOf, IsPricedLeaf};
ghost use Rattle.written_laws.specs.Proved.{IsProvedGiven, IsProvedTree};

use branch_tree::one_tree;
use crew_laws::{
    minutes_are_permitted, open_tasks_may_begin, priced_tasks_are_listed, required_teams_are_listed,
};
use dossier_laws::{extra_is_written, potential_is_written, written_prices_are_in_range};
use label_pricing::{best_potentials_hold, earnings_fit, worths_decide};
use search_laws::prices_have_potentials;

/// A leaf is written with its prices.
pub fn leaves_keep_their_prices()
    ensures { (n : Limits) (p : Prices) (leaf : Leaf) → IsInstance n.instance → IsPriced n p
        → IsPricedLeaf n p leaf → prices_of n leaf ≡ p }
{
    earnings_fit();
    extra_is_written();
    priced_tasks_are_listed();
    required_teams_are_listed();
    written_prices_are_in_range();
}

/// The dossier of parts that are proved is good: its lines are read to their end, and its bound holds.
pub fn written_dossiers_are_good()
    ensures { (g : Given) (d : Dossier) → IsDossierOf g d → IsProvedGiven g → IsGood d }
{
    best_potentials_hold();
    earnings_fit();
    extra_is_written();
    minutes_are_permitted();
    one_tree();
    open_tasks_may_begin();
    potential_is_written();
    priced_tasks_are_listed();
    required_teams_are_listed();
    worths_decide();
    written_prices_are_in_range();
}

/// The tree of a round that makes no step is proved: a bare leaf, or an open leaf at prices that are all 0, with bound 0.
pub fn first_trees_are_proved()
    ensures bare { (n : Limits) (p : Prices) (u : ℕ) → IsPriced n p
        → IsProvedTree n 0 u (LeafNode (record { state = states.Bare; prices = p })) }
    ensures open_one { (n : Limits) (u : ℕ) → IsInstance n.instance → IsPriced n (zero_prices n) →
        IsProvedTree n 0 u (LeafNode (record { state = states.Open; prices = zero_prices n })) }
{
    prices_have_potentials();
}
