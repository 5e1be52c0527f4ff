// Laws of the inputs of `delays`: an input has the form in one way, with one text, or a line of it is refused. Each law is the
// contract of a function with nothing to do.
ghost use Rattle.std.specs.Prelude.{◌≡◌, ℕ, List};
ghost use Rattle.dossier_terms.specs.declared.Reason.{Reason};
ghost use Rattle.dossier_terms.specs.Dossier.{Dossier};
ghost use Rattle.late_lines.specs.declared.first_line.LateLine.{LateLine};
ghost use Rattle.delay_command.specs.Delays.{IsDelays, IsDelaysRefusal, IsDelaysText};

use delay_wave::waits_are_one;
use dossier_commands::laws::refused_is_not_accepted;
use dossier_laws::{one_dossier, refused_is_not_good, unended_is_not_good};
use late_lines::laws::{one_first_refusal, one_front, refused_is_no_front, whole_line_is_no_stop};
use text_laws::{good_lines, lines_in_text, one_text, text_of_lines, words_of_line};

/// An input of which a line is refused has not the form.
pub fn refused_has_no_form()
    ensures { (input : List ℕ) (number : ℕ) (reason : Reason) (lines : List LateLine) (d : Dossier)
        → IsDelaysRefusal input number reason → IsDelays input lines d → ⊥ }
{
    one_front();
    refused_is_no_front();
    refused_is_not_accepted();
    one_text();
}

/// An input has the form in one way, and there is one text of it.
pub fn one_form()
    ensures form { (input : List ℕ) (lines others : List LateLine) (d e : Dossier)
        → IsDelays input lines d → IsDelays input others e → (lines ≡ others) × (d ≡ e) }
    ensures text { (input : List ℕ) (lines : List LateLine) (d : Dossier) (text other : List ℕ)
        → IsDelays input lines d → IsDelaysText lines d text → IsDelaysText lines d other
        → text ≡ other }
{
    one_front();
    one_text();
    waits_are_one();
}

/// An input is refused at one line, for one reason.
pub fn one_refusal()
    ensures { (input : List ℕ) (number other : ℕ) (reason cause : Reason)
        → IsDelaysRefusal input number reason → IsDelaysRefusal input other cause
        → (number ≡ other) × (reason ≡ cause) }
{
    one_front();
    refused_is_no_front();
    one_first_refusal();
    whole_line_is_no_stop();
    refused_is_not_accepted();
    dossier_commands::laws::one_refusal();
    one_text();
    words_of_line();
    lines_in_text();
    good_lines();
    text_of_lines();
    refused_is_not_good();
    unended_is_not_good();
    one_dossier();
}
