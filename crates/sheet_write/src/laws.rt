// Laws of sheets that are written. Each law is the contract of a function with nothing to do.
ghost use Rattle.std.specs.Prelude.{◌≤◌, ℕ, List};
ghost use Rattle.crew_terms.specs.Instance.{Instance};
ghost use Rattle.crew_terms.specs.Limits.{Limits, teams_in};
ghost use Rattle.crew_terms.specs.Rules.{IsInstance};
ghost use Rattle.crew_terms.specs.declared.TheConstants.{MOST_NODES};
ghost use Rattle.crew_terms.specs.declared.Visit.{Visit};
ghost use Rattle.dossier_terms.specs.Dossier.{Potentials};
ghost use Rattle.sheet_terms.specs.Sheet.{IsGoodSheet, Sheet};
ghost use Rattle.squeeze_terms.specs.MinutePrices.{AreMinutePrices, MinutePrices};
ghost use Rattle.squeeze_terms.specs.Squeezed.{IsSqueezed};
ghost use Rattle.sheet_write.specs.Given.{IsProved, SheetGiven, squeezed};
ghost use Rattle.sheet_write.specs.Sheets.{IsSheetOf};
ghost use Rattle.sheet_write.specs.Teams.{AreTeamTables};

use crew_laws::minutes_are_permitted;
use label_pricing::{best_potentials_hold, earnings_fit, one_worth, teams_have_bests};

/// By minute prices each team has its worth, with potentials that hold.
pub fn teams_have_tables()
    ensures { (n : Limits) (p : MinutePrices) (k : ℕ) → IsInstance n.instance
        → AreMinutePrices n.instance p → k ≤ teams_in n →
        (ts : List Potentials) × AreTeamTables n p k (teams_in n) ts }
{
    best_potentials_hold();
    earnings_fit();
    minutes_are_permitted();
    teams_have_bests();
}

/// A sheet of minute prices whose bound proves its number is good.
pub fn proved_sheets_are_good()
    ensures { (g : SheetGiven) (s : Sheet) → IsInstance g.instance
        → AreMinutePrices g.instance g.prices → IsSheetOf g s → IsProved g → IsGoodSheet s }
{
    one_worth();
}

/// The prices that a price run hands out prove the number that it hands out.
pub fn squeezed_prices_prove()
    ensures { (i : Instance) (nodes steps best l : ℕ) (trace : List (List (List Visit))) →
        nodes ≤ MOST_NODES → IsSqueezed i steps best l trace
        → IsProved (squeezed i nodes best l trace) }
{}
