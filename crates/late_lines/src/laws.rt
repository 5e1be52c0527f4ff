// Laws of the lines before a dossier: they are read in one way, and where one is refused it is for one reason. Each law is
// the contract of a function with nothing to do.
ghost use Rattle.std.specs.Prelude.{◌≡◌, ◌<◌, ◌++◌, ℕ, List, length};
ghost use Rattle.crew_terms.specs.Words.{IsLine, with_feed};
ghost use Rattle.dossier_terms.specs.declared.Reason.{Reason};
ghost use Rattle.dossier_commands.specs.Input.{IsStop};
ghost use Rattle.late_lines.specs.declared.first_line.LateLine.{LateLine};
ghost use Rattle.late_lines.specs.Lines.{AreLateLines, first_lines};
ghost use Rattle.late_lines.specs.First.{BeginsWith, IsFirstRefusal};

use text_laws::{lines_in_text, words_of_line};

/// An input begins with one list of lines before a dossier.
pub fn one_front()
    ensures { (input rest other : List ℕ) (lates others : List LateLine)
        → AreLateLines lates → AreLateLines others
        → BeginsWith (first_lines lates) input rest
        → BeginsWith (first_lines others) input other
        → (lates ≡ others) × (rest ≡ other) }
{
    words_of_line();
    lines_in_text();
}

/// Where a line before a dossier is refused, the input does not begin with such lines.
pub fn refused_is_no_front()
    ensures { (input rest : List ℕ) (lates : List LateLine) (number : ℕ) (reason : Reason)
        → IsFirstRefusal input number reason → AreLateLines lates
        → BeginsWith (first_lines lates) input rest → ⊥ }
{
    words_of_line();
    lines_in_text();
}

/// One line before a dossier is refused, for one reason.
pub fn one_first_refusal()
    ensures { (input : List ℕ) (number other : ℕ) (reason cause : Reason)
        → IsFirstRefusal input number reason → IsFirstRefusal input other cause
        → (number ≡ other) × (reason ≡ cause) }
{
    words_of_line();
    lines_in_text();
}

/// Where a line comes whole within the room, no reading stops.
pub fn whole_line_is_no_stop()
    ensures { (room : ℕ) (rest line after : List ℕ) (reason : Reason) → IsStop room rest reason
        → IsLine line → length line < room → rest ≡ with_feed line ++ after → ⊥ }
{}
