// Laws of lines that were taken: what they lead to, and what they end.
ghost use Rattle.std.specs.Prelude.{◌≡◌, ◌++◌, ◌∷◌, [], List};
ghost use Rattle.crew_terms.specs.Words.{Words};
ghost use Rattle.sheet_terms.specs.Reading.{SheetReading, SheetAnswer, First, More, Whole};
ghost use Rattle.sheet_terms.specs.Sheet.{Sheet};
ghost use Rattle.sheet_terms.specs.Table.{ReachesInSheet, SaysOfSheet};
ghost use Rattle.sheet_checker.specs.Checked.{IsReached, IsTrueBound};

use sheet_laws::good_sheets_bound;
use sheet_reads::{read_sheet_is_good, sheet_ends, sheet_goes_on, sheet_says_one_thing};

/// There is one answer to a line where lines have led to what is due.
pub fn one_answer()
    ensures { (due : SheetReading) (words : Words) (a b : SheetAnswer) → IsReached due
        → SaysOfSheet due words a → SaysOfSheet due words b → b ≡ a }
{
    sheet_says_one_thing();
}

/// A line that breaks no rule leads on.
pub fn reached_goes_on()
    ensures { (due next : SheetReading) (words : Words) → IsReached due
        → SaysOfSheet due words (More next) → IsReached next }
{
    sheet_goes_on();
}

/// A sheet that a line ends is the one of the lines up to it, and what it says is true.
pub fn whole_is_true()
    ensures { (lines : List Words) (due : SheetReading) (words : Words) (s : Sheet)
        → ReachesInSheet First lines due → SaysOfSheet due words (Whole s)
        → IsTrueBound (lines ++ words ∷ []) s.bound }
{
    sheet_ends();
    read_sheet_is_good();
    good_sheets_bound();
}
