// Laws of the bytes of a dossier: what a line makes of them, and which of them begin a good one; and a law of generated days.
ghost use Rattle.std.specs.Prelude.{◌≡◌, ◌≤◌, ◌<◌, ◌+◌, ◌++◌, ◌∷◌, [], ℕ, List, length};
ghost use Rattle.crew_io.specs.Lines.{NoFeed};
ghost use Rattle.crew_terms.specs.Words.{words_of};
ghost use Rattle.crew_terms.specs.declared.TheConstants.{LONGEST_LINE};
ghost use Rattle.cert_checker.specs.Checked.{Checked, IsJudged, verdict_of};
ghost use Rattle.cert_checker.specs.declared.checker.Said.{Said};
ghost use Rattle.cert_checker.specs.declared.checker.Verdict.{Verdict};
ghost use Rattle.dossier_terms.specs.Dossier.{Dossier, IsGood};
ghost use Rattle.dossier_terms.specs.Lines.{text_of};
ghost use Rattle.day_gen.specs.Day.{generated_day};
ghost use Rattle.trial_command.specs.Findings.{AreDossier, AreLines, BeginNone, Holds, finding_of};
ghost use Rattle.trial_command.specs.LastRound.{EndsInRound};
ghost use Rattle.trial_command.specs.declared.feed.Finding.{Finding};
ghost use Rattle.trial_command.specs.declared.feed.Finding.TheVariants.{Whole};

use dossier_laws::{
    read_is_good, reading_ends, reading_goes_on, refused_is_not_good, unended_is_not_good,
};
use text_laws::{good_lines, one_text, read_front, text_of_lines};

/// Behind lines of a dossier and one line more the bytes are what the checker's judgement of that line makes of them.
pub(crate) fn lines_are_judged()
    ensures { (bytes front : List ℕ) (old new : Checked) (said : Said) (are : AreLines bytes front old)
        → IsJudged old.lines are.due (words_of front) said new
        → Holds (finding_of said) (bytes ++ 10 ∷ []) [] new }
{
    reading_goes_on();
    reading_ends();
    read_is_good();
    refused_is_not_good();
    text_of_lines();
    read_front();
}

/// Behind lines of a dossier and the front of a line more bytes without an LF are the front of a longer line, and begin
/// no good dossier where they make it longer than a line may be.
pub(crate) fn lines_are_short()
    ensures front { (bytes front : List ℕ) (checker : Checked) (more : List ℕ)
        → AreLines bytes front checker → NoFeed more
        → length front + length more ≤ LONGEST_LINE
        → AreLines (bytes ++ more) (front ++ more) checker }
    ensures long { (bytes front : List ℕ) (checker : Checked) (more : List ℕ)
        → AreLines bytes front checker → NoFeed more
        → LONGEST_LINE < length front + length more → BeginNone (bytes ++ more) }
{
    good_lines();
    read_front();
}

/// No good dossier begins with another one and more bytes, or with bytes with which none begins.
pub(crate) fn dossiers_begin_none()
    ensures whole { (bytes : List ℕ) (verdict : Verdict) (more : List ℕ) → AreDossier bytes verdict
        → 0 < length more → BeginNone (bytes ++ more) }
    ensures none { (bytes more : List ℕ) → BeginNone bytes → BeginNone (bytes ++ more) }
{
    one_text();
}

/// Of the bytes of a good dossier it is found that they are one that says what it says.
pub(crate) fn good_is_found()
    ensures { (finding : Finding) (bytes front : List ℕ) (checker : Checked) (d : Dossier)
        → Holds finding bytes front checker → IsGood d → bytes ≡ text_of d
        → finding ≡ Whole (verdict_of d) }
{
    one_text();
    read_front();
    unended_is_not_good();
}

/// A generated day has one round, which its last entry begins.
pub(crate) fn generated_days_end_in_a_round()
    ensures { (number teams tasks nodes : ℕ) → EndsInRound (generated_day number teams tasks nodes) }
{}
