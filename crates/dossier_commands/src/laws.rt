// Laws of inputs: what is refused is accepted as no dossiers, and what ends a dossier is its text.
ghost use Rattle.std.specs.Prelude.{◌≡◌, ◌⊎◌, ◌++◌, ◌∷◌, ℕ, List, [], map};
ghost use Rattle.crew_terms.specs.Words.{Words, words_of};
ghost use Rattle.dossier_terms.specs.declared.Reason.{Reason};
ghost use Rattle.dossier_terms.specs.Dossier.{Dossier};
ghost use Rattle.dossier_terms.specs.Lines.{lines_of, text_of};
ghost use Rattle.dossier_terms.specs.Reading.{Form, Reading};
ghost use Rattle.dossier_terms.specs.Table.{Ended, Reaches};
ghost use Rattle.cert_checker.specs.Checked.{IsTrueYes};
ghost use Rattle.dossier_commands.specs.Input.{Front, GoTo, HasRead, IsAcceptedBehind, IsRefusal, text_of_lines};

use dossier_laws::{
    good_bounds, good_is_read, loose_splits_stay_open, one_dossier, read_is_good, says_one_thing,
    sheet_is_good,
};
use text_laws::{good_lines, lines_in_text, read_front, words_of_line};

/// An input with a line that is refused is accepted as no list of dossiers behind the same front.
pub fn refused_is_not_accepted()
    ensures { (front : Front) (input : List ℕ) (done : List Dossier) (number : ℕ)
        (reason : Reason) (dossiers : List Dossier)
        → IsRefusal front input done number reason → IsAcceptedBehind front input dossiers → ⊥ }
{
    read_front();
    good_lines();
    words_of_line();
    text_laws::text_of_lines();
    one_dossier();
    good_is_read();
    says_one_thing();
}

/// An input is refused at one line, behind a front and one list of dossiers, for one reason.
pub fn one_refusal()
    ensures { (front : Front) (input : List ℕ) (done others : List Dossier) (number other : ℕ)
        (reason cause : Reason)
        → IsRefusal front input done number reason → IsRefusal front input others other cause
        → (done ≡ others) × (number ≡ other) × (reason ≡ cause) }
{
    lines_in_text();
    read_front();
    good_lines();
    words_of_line();
    text_laws::text_of_lines();
    one_dossier();
    good_is_read();
    says_one_thing();
}

/// Of two readings of an input behind one front, the dossiers of the one go on to those of the other; and an input of
/// which one more good dossier can be read is not refused before it.
pub fn one_way_on()
    ensures dossiers { (front : Front) (input : List ℕ) (done others : List Dossier)
        (lines more : List (List ℕ)) (rest later : List ℕ) (due next : Reading)
        → HasRead front input done lines rest due → HasRead front input others more later next
        → GoTo done others ⊎ GoTo others done }
    ensures refusal { (front : Front) (input : List ℕ) (done tail : List Dossier) (d : Dossier)
        (rest : List ℕ) (number : ℕ) (reason : Reason)
        → IsRefusal front input done number reason
        → HasRead front input (done ++ d ∷ tail) [] rest Form → ⊥ }
{
    lines_in_text();
    read_front();
    good_lines();
    words_of_line();
    text_laws::text_of_lines();
    one_dossier();
    good_is_read();
    says_one_thing();
}

/// Lines of which the last ends a dossier are its text, and the dossier is what it says.
pub fn whole_is_true()
    ensures { (lines : List (List ℕ)) (d : Dossier) → Ended Form (map words_of lines) d
        → IsTrueYes d × (text_of d ≡ text_of_lines lines) × (lines_of d ≡ map words_of lines) }
{
    read_is_good();
    good_bounds();
    loose_splits_stay_open();
    text_laws::text_of_lines();
}

/// Lines that are taken do not lead back to the first line of a dossier.
pub fn first_line_is_first()
    ensures { (lines : List Words) → Reaches Form lines Form → lines ≡ [] }
{
    sheet_is_good();
    good_is_read();
    read_is_good();
}
