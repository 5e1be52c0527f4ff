// Laws of inputs: what is refused is accepted as no sheets, and what ends a sheet is its text.
ghost use Rattle.std.specs.Prelude.{◌≡◌, ℕ, List, map};
ghost use Rattle.crew_terms.specs.Words.{words_of};
ghost use Rattle.dossier_terms.specs.declared.Reason.{Reason};
ghost use Rattle.dossier_commands.specs.Input.{text_of_lines};
ghost use Rattle.sheet_terms.specs.Lines.{lines_of_sheet, text_of_sheet};
ghost use Rattle.sheet_terms.specs.Reading.{First};
ghost use Rattle.sheet_terms.specs.Sheet.{Sheet};
ghost use Rattle.sheet_terms.specs.Table.{EndsSheet};
ghost use Rattle.sheet_texts.specs.Accepted.{AreAcceptedSheets};
ghost use Rattle.sheet_commands.specs.Input.{IsRefusal, IsTrueSheet};

use sheet_laws::good_sheets_bound;
use sheet_reads::{good_sheet_is_read, read_sheet_is_good, sheet_says_one_thing};
use sheet_texts::{good_sheet_lines, one_sheet, read_sheet_front, text_of_sheet_lines};
use text_laws::{lines_in_text, words_of_line};

/// An input with a line that is refused is accepted as no list of sheets.
pub fn refused_is_not_accepted()
    ensures { (input : List ℕ) (done : List Sheet) (number : ℕ) (reason : Reason) (sheets : List Sheet)
        → IsRefusal input done number reason → AreAcceptedSheets input sheets → ⊥ }
{
    read_sheet_front();
    good_sheet_lines();
    words_of_line();
    text_of_sheet_lines();
    one_sheet();
    good_sheet_is_read();
    sheet_says_one_thing();
}

/// An input is refused at one line, behind one list of sheets, for one reason.
pub fn one_refusal()
    ensures { (input : List ℕ) (done others : List Sheet) (number other : ℕ) (reason cause : Reason)
        → IsRefusal input done number reason → IsRefusal input others other cause
        → (done ≡ others) × (number ≡ other) × (reason ≡ cause) }
{
    lines_in_text();
    read_sheet_front();
    good_sheet_lines();
    words_of_line();
    text_of_sheet_lines();
    one_sheet();
    good_sheet_is_read();
    sheet_says_one_thing();
}

/// Lines of which the last ends a sheet are its text, and the sheet is what it says.
pub fn whole_is_true()
    ensures { (lines : List (List ℕ)) (s : Sheet) → EndsSheet First (map words_of lines) s
        → IsTrueSheet s × (text_of_sheet s ≡ text_of_lines lines) × (lines_of_sheet s ≡ map words_of lines) }
{
    read_sheet_is_good();
    good_sheets_bound();
    text_of_sheet_lines();
}
