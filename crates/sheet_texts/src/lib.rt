// Laws about the bytes of a sheet's text: each of its lines is one, and a text is read in one way.
#![tactic(auto)]

ghost use Rattle.std.specs.Prelude.{◌≡◌, ◌++◌, List, [], ℕ, map, All};
ghost use Rattle.std.specs.List.{flat_map};
ghost use Rattle.crew_terms.specs.Words.{Words, words_of, with_feed, IsLine};
ghost use Rattle.text_laws.specs.Texts.{AreLine, IsFront};
ghost use Rattle.sheet_terms.specs.Lines.{lines_of_sheet, text_of_sheet};
ghost use Rattle.sheet_terms.specs.Sheet.{Sheet, IsGoodSheet};
ghost use Rattle.sheet_terms.specs.Reading.{First};
ghost use Rattle.sheet_terms.specs.Table.{ReachesInSheet};
ghost use Rattle.sheet_texts.specs.Accepted.{AreAcceptedSheets};

use dossier_laws::{
    lines_grow_row_by_row, read_head_is_good, reading_goes_on, rows_are_told_by_runs,
};
use sheet_reads::{good_sheet_is_read, sheet_says_one_thing};

/// No lines of a good sheet begin those of another.
pub fn one_sheet()
    ensures { (s t : Sheet) (more : List Words) → IsGoodSheet s → IsGoodSheet t
        → lines_of_sheet t ≡ lines_of_sheet s ++ more → (more ≡ []) × (s ≡ t) }
{
    good_sheet_is_read();
    sheet_says_one_thing();
}

/// Lines that are taken do not lead back to the first line of a sheet.
pub fn first_sheet_line_is_first()
    ensures { (lines : List Words) → ReachesInSheet First lines First → lines ≡ [] }
{
    reading_goes_on();
    read_head_is_good();
    rows_are_told_by_runs();
    lines_grow_row_by_row();
}

/// Each line of a good sheet has words without a space and an LF, and is no longer than a line may be.
pub fn good_sheet_lines()
    ensures { (s : Sheet) → IsGoodSheet s → All AreLine (lines_of_sheet s) }
{}

/// Lines that have been read of the text of good sheets are its first ones, and the rest is the text of those after them.
pub fn read_sheet_front()
    ensures { (sheets : List Sheet) (lines : List (List ℕ)) (rest : List ℕ) → All IsGoodSheet sheets
        → All IsLine lines → flat_map text_of_sheet sheets ≡ flat_map with_feed lines ++ rest
        → IsFront (flat_map lines_of_sheet sheets) lines rest }
{}

/// Lines that are cut into the words of sheets are their text.
pub fn text_of_sheet_lines()
    ensures { (sheets : List Sheet) (lines : List (List ℕ))
        → flat_map lines_of_sheet sheets ≡ map words_of lines
        → flat_map text_of_sheet sheets ≡ flat_map with_feed lines }
{}

/// Bytes are accepted as one list of sheets.
#[tactic(auto, using(crate::proofs::Once::accepted_once))]
pub fn accepted_sheets_one_way()
    ensures { (bytes : List ℕ) (sheets others : List Sheet) → AreAcceptedSheets bytes sheets
        → AreAcceptedSheets bytes others → sheets ≡ others }
{
    one_sheet();
}
