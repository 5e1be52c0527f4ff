// What no prices can prove where shares of routes leave little unassigned, and so what the causes of a good dossier's splits
// mean. Each law is the contract of a function with nothing to do.
ghost use Rattle.std.specs.Prelude.{◌≤◌, ◌+◌, ◌-◌, ◌*◌, ◌≤ℤ◌, ◌*ℤ◌, List, ℕ, ℤ, pos};
ghost use Rattle.crew_terms.specs.Leaf.{IsValidLeaf, Prices, bound_of};
ghost use Rattle.crew_terms.specs.Limits.{Limits, root_limits};
ghost use Rattle.crew_terms.specs.declared.TheConstants.{D};
ghost use Rattle.dossier_terms.specs.Dossier.{Dossier, IsGood};
ghost use Rattle.dossier_laws.specs.Shown.{EachStaysOpen};
ghost use Rattle.share_terms.specs.Shares.{FractionalChoice, IsFractional, IsLoose, choice_value};
ghost use Rattle.share_terms.specs.declared.TheConstants.{MARGIN};

use crew_laws::worth_bounds_routes;

/// Weak duality of linear programs: no valid leaf has a bound above the value of a fractional choice in its node.
pub fn no_leaf_beats_a_choice()
    ensures { (n : Limits) (prices : Prices) (worths : List ℤ) (phi : ℕ → ℕ → ℕ → ℤ)
        (c : FractionalChoice) →
        IsValidLeaf n prices worths phi → IsFractional n c →
        (pos c.whole *ℤ bound_of n prices worths) ≤ℤ (pos D *ℤ choice_value n c) }
{
    worth_bounds_routes();
}

/// Where a fractional choice is loose at a number less one and a thousandth, no prices have a bound above that.
pub fn loose_choices_bound_prices()
    ensures { (n : Limits) (prices : Prices) (worths : List ℤ) (phi : ℕ → ℕ → ℕ → ℤ)
        (c : FractionalChoice) (now : ℕ) →
        IsValidLeaf n prices worths phi → IsFractional n c → 1 ≤ now
        → IsLoose n c (1000 * (now - 1) + 1) 1000 →
        bound_of n prices worths ≤ℤ pos ((now - 1) * D + MARGIN) }
{
    no_leaf_beats_a_choice();
}

/// A loose split of a good dossier had to be made: no prices could have closed its node by more than a thousandth of a
/// task, since the shares that it shows leave hardly more than that unassigned (weak duality of linear programs).
pub fn loose_splits_stay_open()
    ensures { (d : Dossier) → IsGood d → EachStaysOpen (root_limits d.instance) d.tree }
{
    loose_choices_bound_prices();
}
