// The laws of reading sheets: the table of a sheet's lines says one thing of each line, and reads what is good and nothing else. Each
// law is the contract of a function with nothing to do.
#![tactic(auto)]

ghost use Rattle.std.specs.Prelude.{◌≡◌, ◌++◌, List, [], ◌∷◌};
ghost use Rattle.crew_terms.specs.Words.{Words};
ghost use Rattle.sheet_terms.specs.Lines.{lines_of_sheet};
ghost use Rattle.sheet_terms.specs.Reading.{SheetReading, SheetAnswer, First, More, Whole};
ghost use Rattle.sheet_terms.specs.Sheet.{Sheet, IsGoodSheet};
ghost use Rattle.sheet_terms.specs.Table.{SaysOfSheet, ReachesInSheet, EndsSheet};
ghost use Rattle.sheet_reads.specs.Law.{IsWholeSheet};

use dossier_laws::{
    head_is_read, lines_grow_row_by_row, numbers_are_told_apart, read_head_is_good,
    reading_goes_on, rows_are_told_by_runs, says_one_thing,
};
use sheet_laws::read_sheets_hold;

/// A line of which the table says what is due next goes on with the lines before it.
pub fn sheet_goes_on()
    ensures { (s : SheetReading) (lines : List Words) (m : SheetReading) (ws : Words)
        (next : SheetReading) → ReachesInSheet s lines m → SaysOfSheet m ws (More next)
        → ReachesInSheet s (lines ++ ws ∷ []) next }
{}

/// A line of which the table says a sheet ends it with the lines before it.
pub fn sheet_ends()
    ensures { (s : SheetReading) (lines : List Words) (m : SheetReading) (ws : Words) (sheet : Sheet) →
        ReachesInSheet s lines m → SaysOfSheet m ws (Whole sheet)
        → EndsSheet s (lines ++ ws ∷ []) sheet }
{}

/// Lines that the table reads to their end are the lines of a good sheet.
pub fn read_sheet_is_good()
    ensures { (lines : List Words) (s : Sheet) → EndsSheet First lines s → IsWholeSheet lines s }
{
    reading_goes_on();
    read_head_is_good();
    rows_are_told_by_runs();
    lines_grow_row_by_row();
    read_sheets_hold();
}

/// The lines of a good sheet are read to its end.
pub fn good_sheet_is_read()
    ensures { (s : Sheet) → IsGoodSheet s → EndsSheet First (lines_of_sheet s) s }
{
    head_is_read();
    rows_are_told_by_runs();
}

/// The table says one thing of a line, where lines have led from the start to a state: one next state, one sheet or one reason.
pub fn sheet_says_one_thing()
    ensures { (lines : List Words) (s : SheetReading) (ws : Words) (a b : SheetAnswer) →
        ReachesInSheet First lines s → SaysOfSheet s ws a → SaysOfSheet s ws b → a ≡ b }
{
    reading_goes_on();
    read_head_is_good();
    rows_are_told_by_runs();
    lines_grow_row_by_row();
    says_one_thing();
    numbers_are_told_apart();
}
