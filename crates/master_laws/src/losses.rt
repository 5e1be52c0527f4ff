// The laws of prices that are rounded down: what a bound loses by it. Each law is the contract of a function with nothing
// to do.
ghost use Rattle.std.specs.Prelude.{◌≤◌, ◌<◌, ◌+◌, ◌-◌, ◌*◌, ◌≤ℤ◌, ◌+ℤ◌, ◌*ℤ◌, ℕ, ℤ, pos, All, List};
ghost use Rattle.crew_terms.specs.Leaf.{Prices, Proves, bound_of, worth_of};
ghost use Rattle.crew_terms.specs.Limits.{Limits, Route, teams_in};
ghost use Rattle.crew_terms.specs.Rules.{IsInstance};
ghost use Rattle.crew_terms.specs.declared.TheConstants.{D};
ghost use Rattle.search_terms.specs.BasicChoice.{AreWholeParts, choice_of};
ghost use Rattle.search_terms.specs.Earned.{AreRounded, AreWorths, BeatsRoutes};
ghost use Rattle.search_terms.specs.MasterRun.{IsMasterRun};
ghost use Rattle.search_terms.specs.Pivot.{IsOptimal};
ghost use Rattle.search_terms.specs.Rows.{Rows, number, value_row};
ghost use Rattle.share_terms.specs.Shares.{IsLoose, IsRouteIn, choice_value};
ghost use Rattle.search_terms.specs.declared.TheConstants.{RIGHT, VALUE};
ghost use Rattle.master_laws.specs.Loss.{rounding_loss};

use crate::{duals_stand, optimal_choice, optimal_prices, places_are, run_keeps, strong_duality};

/// The most that a bound loses, in 1/D: a unit for each of the teams of the most tasks, and for each pair.
pub const MOST_LOSS: u32 = 28_800;

/// Where no variable has a negative reduced cost, and no team has a route that improves, the bound of the rows' prices,
/// rounded down, is at least the rows' value less this loss. The value is over the value's basic entry.
pub fn rounding_loses_little()
    ensures { (n : Limits) (routes : List Route) (made : ℕ) (t : Rows) (prices : Prices)
        (worths : List ℤ) →
        IsMasterRun n routes made t → IsOptimal t → All (IsRouteIn n) routes → AreRounded n t prices
        → AreWorths n prices worths →
        ((k : ℕ) → k < teams_in n → BeatsRoutes routes k prices (worth_of worths k) → ⊥) →
        (pos D *ℤ number (value_row t) RIGHT) ≤ℤ
        (number (value_row t) VALUE *ℤ (bound_of n prices worths +ℤ rounding_loss n)) }
{
    duals_stand();
    optimal_prices();
    places_are();
    run_keeps();
    strong_duality();
}

/// No node of an instance has a greater loss.
pub fn little_is_lost()
    ensures { (n : Limits) → IsInstance n.instance → rounding_loss n ≤ℤ pos MOST_LOSS }
{}

/// So the bound is within this loss of the value of the shares, in their parts.
pub fn rounded_prices_are_near()
    ensures { (n : Limits) (routes : List Route) (made : ℕ) (t : Rows) (prices : Prices)
        (worths : List ℤ) (whole : ℕ) (x : ℕ → ℕ) →
        IsInstance n.instance → IsMasterRun n routes made t → IsOptimal t → All (IsRouteIn n) routes
        → AreRounded n t prices →
        AreWorths n prices worths → ((k : ℕ) → k < teams_in n
        → BeatsRoutes routes k prices (worth_of worths k) → ⊥) →
        AreWholeParts n routes t whole x →
        (pos D *ℤ choice_value n (choice_of n routes whole x)) ≤ℤ
        (pos whole *ℤ (bound_of n prices worths +ℤ pos MOST_LOSS)) }
{
    rounding_loses_little();
    little_is_lost();
    run_keeps();
    optimal_choice();
}

/// And where these prices don't prove that so many tasks stay unassigned, the shares are loose: their value is at most one
/// less and a thousandth.
pub fn unproved_shares_are_loose()
    ensures { (n : Limits) (routes : List Route) (made : ℕ) (t : Rows) (prices : Prices)
        (worths : List ℤ) (whole : ℕ) (x : ℕ → ℕ) (now : ℕ) →
        IsInstance n.instance → IsMasterRun n routes made t → IsOptimal t → All (IsRouteIn n) routes
        → AreRounded n t prices →
        AreWorths n prices worths → ((k : ℕ) → k < teams_in n
        → BeatsRoutes routes k prices (worth_of worths k) → ⊥) →
        AreWholeParts n routes t whole x → 1 ≤ now → (Proves (bound_of n prices worths) now → ⊥) →
        IsLoose n (choice_of n routes whole x) (1000 * (now - 1) + 1) 1000 }
{
    rounded_prices_are_near();
}
