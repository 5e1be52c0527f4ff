// The laws of the rows of the master problem: what pivots and runs keep, what the rows say at an optimum, and what a bound
// loses where prices are rounded down. Each law is the contract of a function with nothing to do.
#![tactic(auto)]

ghost use Rattle.std.specs.Prelude.{◌≡◌, ◌≤◌, ◌+◌, ◌<◌, ◌↔◌, ◌++◌, ◌≤ℤ◌, ◌+ℤ◌, ◌-ℤ◌, ◌*ℤ◌, pos, length, List, ℕ, ℤ, slice_index_or, unsigned_abs, All, Contains};
ghost use Rattle.std.specs.Int.{◌∣◌};
ghost use Rattle.crew_terms.specs.Limits.{Limits, Route, pair_of, tasks_in, teams_in};
ghost use Rattle.crew_terms.specs.Leaf.{Prices};
ghost use Rattle.crew_terms.specs.Total.{total};
ghost use Rattle.search_terms.specs.Rows.{Rows, AreBasic, AreFeasible, HaveSameSolutions, basic_of, number, row_of, value_row, width};
ghost use Rattle.search_terms.specs.Opening.{OpensWith, dual, dual_sum, entered, openers, opening, opening_basis, places, with_routes};
ghost use Rattle.search_terms.specs.Pivot.{IsBounding, IsImproving, IsOptimal, IsPivot};
ghost use Rattle.search_terms.specs.MasterRun.{IsMasterRun, IsRunOver};
ghost use Rattle.search_terms.specs.Duals.{AreDuals, AreUpToPenalty, best_reward, extras, term_over};
ghost use Rattle.share_terms.specs.Shares.{IsFractional, IsRouteIn, choice_value, unassigned_of};
ghost use Rattle.search_terms.specs.declared.TheConstants.{RIGHT, VALUE};
ghost use Rattle.search_terms.specs.BasicChoice.{AreWholeParts, choice_of};
ghost use Rattle.search_terms.specs.declared.Place.{Place};

mod losses;

use crew_terms::Pair;
pub use losses::{
    MOST_LOSS, little_is_lost, rounded_prices_are_near, rounding_loses_little,
    unproved_shares_are_loose,
};
use search_terms::Place;

/// A pivot keeps the vectors that solve the rows.
pub fn pivot_keeps_solutions()
    ensures { (t next : Rows) → AreBasic t → IsPivot t next → HaveSameSolutions t next }
{}

/// A pivot keeps the basic solution feasible.
pub fn pivot_keeps_feasible()
    ensures { (t next : Rows) → AreFeasible t → IsPivot t next → AreFeasible next }
{}

/// The next rows are determined.
pub fn one_pivot()
    ensures { (t a b : Rows) → AreBasic t → IsPivot t a → IsPivot t b → a ≡ b }
{}

/// The rows of a run are feasible, and have the solutions of the opening rows with its routes.
pub fn run_keeps()
    ensures feasible { (n : Limits) (routes : List Route) (made : ℕ) (t : Rows)
        → IsMasterRun n routes made t → AreFeasible t }
    ensures solutions { (n : Limits) (routes : List Route) (made : ℕ) (t : Rows)
        → IsMasterRun n routes made t →
        HaveSameSolutions t (with_routes n routes) }
    ensures value { (n : Limits) (routes : List Route) (made : ℕ) (t : Rows)
        → IsMasterRun n routes made t →
        pos 0 ≤ℤ number (value_row t) RIGHT }
{}

/// The run over a list is determined: its rows after so many routes and pivots.
pub fn one_run()
    ensures { (n : Limits) (routes : List Route) (made : ℕ) (t u : Rows) →
        IsRunOver n routes made t → IsRunOver n routes made u → t ≡ u }
{}

/// In a run, some row bounds each variable of negative reduced cost.
pub fn some_row_bounds()
    ensures { (n : Limits) (routes : List Route) (made v : ℕ) (t : Rows) →
        IsMasterRun n routes made t → IsImproving t v → ((h : ℕ) → IsBounding t v h → ⊥) → ⊥ }
{}

/// Where no variable has a negative reduced cost, no entered route earns more by the duals than its team's worth.
pub fn optimal_duals()
    ensures { (n : Limits) (routes : List Route) (made : ℕ) (t : Rows) (r : Route) →
        IsMasterRun n routes made t → IsOptimal t → Contains routes r
        → dual_sum (places n) (value_row t) r ≤ℤ pos 0 }
{}

/// Pivots keep the rows' length.
pub fn pivot_keeps_width()
    ensures { (t next : Rows) → AreBasic t → IsPivot t next → width next ≡ width t }
{}

/// The basic variables of the opening rows are among the variables of any run's rows.
pub fn openers_within()
    ensures { (n : Limits) (routes : List Route) (made h : ℕ) (t : Rows)
        → IsMasterRun n routes made t →
        h < length (openers (places n)) → slice_index_or (opening_basis (places n)) h 0 < width t }
{}

/// Where rows open, each opener's column is 1 in its own row and 0 in the others: so a row's numbers at the openers are how
/// many times it has each opening row.
pub fn openers_are_ones()
    ensures basic { (n : Limits) → AreBasic (opening n) }
    ensures ones { (n : Limits) (h : ℕ) → h < length (opening n).rows
        → number (row_of (opening n) h) (basic_of (opening n) h) ≡ pos 1 }
{}

/// A route that enters changes no dual: no price, no extra and no worth.
pub fn entering_keeps_duals()
    ensures { (n : Limits) (routes : List Route) (made h : ℕ) (r : Route) (t : Rows)
        → IsMasterRun n routes made t →
        h < length (openers (places n)) →
        dual (places n) (value_row (entered (places n) r t)) h ≡ dual (places n) (value_row t) h }
{}

/// The duals of any rows stand as prices and extras.
pub fn duals_stand()
    ensures { (n : Limits) (t : Rows) → (prices : Prices) × AreDuals n (value_row t) prices }
{}

/// Where no variable has a negative reduced cost, prices and extras lie within the penalty of 0.
pub fn optimal_prices()
    ensures { (n : Limits) (routes : List Route) (made : ℕ) (t : Rows) (prices : Prices) →
        IsMasterRun n routes made t → IsOptimal t → AreDuals n (value_row t) prices
        → AreUpToPenalty n (value_row t) prices }
{}

/// Strong duality: where no variable has a negative reduced cost, the value is the sum of the terms and the extras, less
/// for each team the greater of 0 and the best reward among its entered routes. All is over the value's basic entry.
pub fn strong_duality()
    ensures { (n : Limits) (routes : List Route) (made : ℕ) (t : Rows) (prices : Prices) →
        IsMasterRun n routes made t → IsOptimal t → All (IsRouteIn n) routes
        → AreDuals n (value_row t) prices →
        number (value_row t) RIGHT ≡ (total (tasks_in n)
        (term_over n (number (value_row t) VALUE) prices) +ℤ extras n prices)
        -ℤ total (teams_in n) (best_reward prices routes) }
{}

/// And the basic solution is a fractional choice of this value.
pub fn optimal_choice()
    ensures fractional { (n : Limits) (routes : List Route) (made : ℕ) (t : Rows) (whole : ℕ)
        (x : ℕ → ℕ) →
        IsMasterRun n routes made t → IsOptimal t → All (IsRouteIn n) routes
        → AreWholeParts n routes t whole x →
        IsFractional n (choice_of n routes whole x) }
    ensures value { (n : Limits) (routes : List Route) (made : ℕ) (t : Rows) (whole : ℕ)
        (x : ℕ → ℕ) →
        IsMasterRun n routes made t → IsOptimal t → All (IsRouteIn n) routes
        → AreWholeParts n routes t whole x →
        number (value_row t) VALUE *ℤ choice_value n (choice_of n routes whole x)
        ≡ number (value_row t) RIGHT *ℤ pos whole }
{}

/// Some whole number of parts makes all these shares whole.
pub fn parts_stand()
    ensures { (n : Limits) (routes : List Route) (made : ℕ) (t : Rows)
        → IsMasterRun n routes made t →
        (whole : ℕ) × ((x : ℕ → ℕ) × AreWholeParts n routes t whole x) }
{}

/// Two opening rows open with different variables, so that a price or an extra is the dual number of one row.
pub fn openers_differ()
    ensures { (n : Limits) (h i : ℕ) (p : Place) → OpensWith n h p → OpensWith n i p → h ≡ i }
{}

/// No number but 1 divides all numbers of a row of a run: rows are in lowest terms.
pub fn rows_are_lowest()
    ensures { (n : Limits) (routes : List Route) (made h d : ℕ) (t : Rows)
        → IsMasterRun n routes made t → h < length t.rows →
        ((j : ℕ) → j < length (row_of t h) → d ∣ unsigned_abs (number (row_of t h) j)) → d ≡ 1 }
{}

/// In a run over routes of known teams, no share of a route or of an unassigned task is more than a whole.
pub fn shares_are_parts()
    ensures routes { (n : Limits) (routes : List Route) (made whole i : ℕ) (t : Rows) (x : ℕ → ℕ)
        → IsMasterRun n routes made t →
        All (λ (r : Route). r.team < teams_in n) routes → AreWholeParts n routes t whole x
        → i < length routes →
        x (length (places n) + i) ≤ whole }
    ensures tasks { (n : Limits) (routes : List Route) (made whole j : ℕ) (t : Rows) (x : ℕ → ℕ)
        → IsMasterRun n routes made t →
        All (λ (r : Route). r.team < teams_in n) routes → AreWholeParts n routes t whole x →
        unassigned_of (choice_of n routes whole x) j ≤ whole }
{}

/// What stands in the places of a node: an unused share for each team, a shortage for each task, a missed part for each
/// required pair.
pub fn places_are()
    ensures teams { (n : Limits) (k : ℕ) → Contains (places n) (Place.Unused k) ↔ (k < teams_in n) }
    ensures tasks { (n : Limits) (j : ℕ) → Contains (places n) (Place.Shortage j)
        ↔ (j < tasks_in n) }
    ensures pairs { (n : Limits) (k j : ℕ) → Contains (places n) (Place.Missed k j) ↔
        ((k < teams_in n) × (j < tasks_in n) × (pair_of n k j ≡ Pair.Required)) }
{}

/// The run over a list is a run.
pub fn lists_are_runs()
    ensures { (n : Limits) (routes : List Route) (made : ℕ) (t : Rows) → IsRunOver n routes made t
        → IsMasterRun n routes made t }
{}
