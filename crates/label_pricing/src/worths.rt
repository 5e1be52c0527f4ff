// What prices prove, by the worths of all teams.
ghost use Rattle.std.specs.Prelude.{◌≤◌, ◌↔◌, ℕ, ℤ, List};
ghost use Rattle.crew_terms.specs.Leaf.{AreInRange, IsOnRequired, Prices as NodePrices, Proves, bound_of};
ghost use Rattle.crew_terms.specs.Limits.{Limits as NodeLimits};
ghost use Rattle.crew_terms.specs.Rules.{IsInstance};
ghost use Rattle.label_pricing.specs.Worths.{AreWorths};
ghost use Rattle.search_terms.specs.Proven.{PricesProve};

use crew_laws::worth_bounds_routes;
use search_laws::{attained_worths_decide, prices_have_potentials};

/// The worths of all teams decide what prices prove.
pub fn worths_decide()
    ensures { (n : NodeLimits) (p : NodePrices) (worths : List ℤ) (l : ℕ) → IsInstance n.instance
        → AreInRange p → IsOnRequired n p
        → AreWorths n p worths → PricesProve n p l ↔ Proves (bound_of n p worths) l }
{
    worth_bounds_routes();
    prices_have_potentials();
    attained_worths_decide();
}
