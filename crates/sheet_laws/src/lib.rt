// The laws of sheets: what the table of a sheet's lines reads holds, and bounds every legal plan. Each law is the contract of a
// function with nothing to do.
#![tactic(auto)]

ghost use Rattle.std.specs.Prelude.{◌≡◌, ◌≤◌, ◌++◌, ◌∷◌, [], ℤ, List, length};
ghost use Rattle.crew_terms.specs.Instance.{Instance, task_of};
ghost use Rattle.crew_terms.specs.Leaf.{IsPrice};
ghost use Rattle.crew_terms.specs.Legal.{IsLegal};
ghost use Rattle.crew_terms.specs.Plan.{Plan, unassigned_count};
ghost use Rattle.crew_terms.specs.Words.{Words};
ghost use Rattle.sheet_terms.specs.Reading.{First};
ghost use Rattle.sheet_terms.specs.Sheet.{Sheet, IsGoodSheet};
ghost use Rattle.sheet_terms.specs.Table.{EndsSheet};
ghost use Rattle.dossier_terms.specs.Ranges.{AreNumbers};
ghost use Rattle.squeeze_terms.specs.MinutePrices.{MinutePrices, AreMinutePrices, price_count};
ghost use Rattle.sheet_laws.specs.Held.{Holds};
ghost use Rattle.sheet_laws.specs.Priced.{ArePriced};

use squeeze_laws::minute_prices_prove;

/// Prices that are read task by task, each task's in their ranges and as many as it has, are in the end the prices of the
/// instance.
pub fn prices_are_read_in_turn()
    ensures none { (i : Instance) → ArePriced i [] }
    ensures more { (i : Instance) (p : MinutePrices) (vs : List ℤ) → ArePriced i p
        → AreNumbers IsPrice (price_count (task_of i (length p))) vs → ArePriced i (p ++ vs ∷ []) }
    ensures all { (i : Instance) (p : MinutePrices) → ArePriced i p → length p ≡ length i.tasks
        → AreMinutePrices i p }
{}

/// The prices of a sheet that the table reads to its end are valid with its worths and potentials, and prove its bound.
pub fn read_sheets_hold()
    ensures { (lines : List Words) (s : Sheet) → EndsSheet First lines s → Holds s }
{}

/// No legal plan of the instance of a sheet that the table reads to its end leaves fewer tasks unassigned than its bound.
pub fn read_sheets_bound()
    ensures { (lines : List Words) (s : Sheet) (p : Plan) → EndsSheet First lines s
        → IsLegal s.instance p → s.bound ≤ unassigned_count p }
{
    read_sheets_hold();
    minute_prices_prove();
}

/// No legal plan of a good sheet's instance leaves fewer tasks unassigned than its bound.
pub fn good_sheets_bound()
    ensures { (s : Sheet) (p : Plan) → IsGoodSheet s → IsLegal s.instance p
        → s.bound ≤ unassigned_count p }
{
    minute_prices_prove();
}
