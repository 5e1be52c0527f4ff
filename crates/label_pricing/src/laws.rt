// Laws: the greatest rewards from each visit on are potentials that hold, and are had by following labels.
ghost use Rattle.std.specs.Prelude.{◌≡◌, ◌≤◌, ◌<◌, ◌*◌, ◌≤ℤ◌, ℕ, ℤ, pos, List, FitsSigned};
ghost use Rattle.std.specs.Int.{w64};
ghost use Rattle.crew_terms.specs.Limits.{Limits, IsPermittedVisit, IsRoute, teams_in};
ghost use Rattle.crew_terms.specs.Rules.{IsInstance};
ghost use Rattle.crew_terms.specs.Leaf.{HoldsLocally, IsSteady, IsWorth, rewards};
ghost use Rattle.crew_terms.specs.declared.TheConstants.{MOST_PRICE};
ghost use Rattle.crew_terms.specs.declared.Visit.{Visit};
ghost use Rattle.label_pricing.specs.Best.{IsBest};
ghost use Rattle.potentials.specs.Sums.{AreBoundedBy};

use crew_laws::worth_bounds_routes;
use search_laws::potentials_are_attained;

/// Potentials that are the greatest rewards from each visit on hold locally, with the worth.
pub fn best_potentials_hold()
    ensures { (n : Limits) (k : ℕ) (w phi : ℕ → ℕ → ℤ) (worth : ℤ) →
        ((j t : ℕ) → IsPermittedVisit n k j t → IsBest n k w j t (phi j t)) → IsWorth n k w worth
        → HoldsLocally n k w phi worth }
{}

/// A route's rewards that are a valid worth are the worth.
pub fn best_worth()
    ensures { (n : Limits) (k : ℕ) (w phi : ℕ → ℕ → ℤ) (worth : ℤ) (route : List Visit) →
        HoldsLocally n k w phi worth → IsRoute n k route → rewards w route ≡ worth
        → IsWorth n k w worth }
{
    worth_bounds_routes();
}

/// With rewards that are steady, what can be earned from a visit on does not rise with its minute.
pub fn best_falls()
    ensures { (n : Limits) (k : ℕ) (w : ℕ → ℕ → ℤ) (j t u : ℕ) (v z : ℤ) → IsSteady w → t ≤ u
        → IsPermittedVisit n k j t →
        IsBest n k w j t v → IsBest n k w j u z → z ≤ℤ v }
{}

/// A team has one worth.
pub fn one_worth()
    ensures { (n : Limits) (k : ℕ) (w : ℕ → ℕ → ℤ) (v z : ℤ) → IsWorth n k w v
        → IsWorth n k w z → v ≡ z }
{}

/// A team has a worth, and from each visit on a greatest sum of rewards, which is one number.
pub fn teams_have_bests()
    ensures some { (n : Limits) (k : ℕ) (w : ℕ → ℕ → ℤ) → IsInstance n.instance →
        (worth : ℤ) × (phi : ℕ → ℕ → ℤ) × IsWorth n k w worth ×
        ((j t : ℕ) → IsPermittedVisit n k j t → IsBest n k w j t (phi j t)) }
    ensures one { (n : Limits) (k : ℕ) (w : ℕ → ℕ → ℤ) (j t : ℕ) (v z : ℤ) → IsBest n k w j t v
        → IsBest n k w j t z → v ≡ z }
{
    best_worth();
    potentials_are_attained();
}

/// What a team can earn, in all or from a visit on, is a number of 64 signed bits, where each reward is at most
/// 2,000,000 tasks either way, as by prices; in all it is not below 0.
pub fn earnings_fit()
    ensures least { (n : Limits) (k : ℕ) (w : ℕ → ℕ → ℤ) (v : ℤ) → IsWorth n k w v → pos 0 ≤ℤ v }
    ensures worths { (n : Limits) (k : ℕ) (w : ℕ → ℕ → ℤ) (v : ℤ) → IsInstance n.instance
        → AreBoundedBy (2 * MOST_PRICE) w → k < teams_in n →
        IsWorth n k w v → FitsSigned w64 v }
    ensures bests { (n : Limits) (k : ℕ) (w : ℕ → ℕ → ℤ) (j t : ℕ) (v : ℤ) → IsInstance n.instance
        → AreBoundedBy (2 * MOST_PRICE) w → k < teams_in n →
        IsPermittedVisit n k j t → IsBest n k w j t v → FitsSigned w64 v }
{}
