// An input, dossier by dossier and line by line.
ghost use Rattle.std.specs.Prelude.{◌≡◌, ℕ, List, Ok, IfOk, OnErr};
ghost use Rattle.crew_io.specs.Draws.{TellsReads};
ghost use Rattle.crew_io.specs.Io.{HasEnded};
ghost use Rattle.dossier_terms.specs.Dossier.{Dossier};
ghost use Rattle.cert_checker.specs.Checked.{IsOpen as IsDue};
ghost use Rattle.cert_checker.specs.declared.checker.State.TheVariants as state;
ghost use Rattle.dossier_commands.specs.Input.{Front, IsBetween, CanGoOn, IsOutcome, IsOutcomeAtStop, OpensNext, told_of};

use crate::laws::{first_line_is_first, whole_is_true};
use cert_checker::{Checker, Said, Stop, Verdict, laws};
use crew_io::lines::{LineReader, Progress};
use crew_io::source::Source;
use dossier_terms::Reason;
use std::alloc::AllocError;

/// What comes next in an input.
#[derive(Clone, Copy, Debug, PartialEq, Eq)]
pub enum Outcome {
    /// A good dossier, which says this.
    Yes(Verdict),
    /// The input has ended behind a dossier.
    End,
    /// The first line that is refused, from 1, and why.
    No { line: u64, reason: Reason },
    /// A read failed.
    ReadFault,
}

/// Why no line comes, as the checker is told it; None where a line comes, or where a read failed.
pub fn stop_of(progress: Progress) -> Option<Stop>
    ensures { result ≡ told_of progress }
{
    match progress {
        Progress::End { partial } => Some(Stop::End { partial }),
        Progress::TooLong => Some(Stop::TooLong),
        Progress::TooMuch => Some(Stop::TooMuch),
        Progress::Line | Progress::ReadFault => None,
    }
}

/// The outcome where no line comes whole.
pub(crate) fn outcome_at_stop(checker: &mut Checker, progress: Progress) -> Outcome
    requires { IsDue checker.old.at }
    ensures { IsOutcomeAtStop checker.old progress checker.new result }
{
    let Some(why) = stop_of(progress) else {
        return Outcome::ReadFault;
    };
    match checker.stopped(why) {
        Some(Said::No { line, reason }) => Outcome::No { line, reason },
        Some(_) => unreachable!(),
        None => Outcome::End,
    }
}

/// Reads the next dossier to its end.
pub fn next_dossier<S: Source>(
    reader: &mut LineReader,
    checker: &mut Checker,
    src: &mut S,
) -> Result<Outcome, AllocError>
    requires { CanGoOn reader.old checker.old }
    // What it tells of an input that begins with this front and these dossiers is so.
    ensures outcome { IfOk result (λ outcome.
        (front : Front) (input : List ℕ) (done : List Dossier)
        → IsBetween front input done reader.old (S.left src.old) checker.old
        → IsOutcome front input done reader.new (S.left src.new) checker.new outcome) }

    // After a yes the checker has a good dossier, with a legal plan and a bound that no legal plan goes below.
    ensures next { IfOk result (OpensNext reader.old reader.new checker.new) }
    ensures memory { OnErr result (checker.new.at ≡ state.Spent) }
    ensures ended { IfOk result (λ outcome. outcome ≡ Outcome.End → HasEnded (S.left src.new)) }
    ensures tells { TellsReads S.Source src.old src.new (result ≡ Ok Outcome.ReadFault) }
{
    whole_is_true();
    laws::whole_is_true();
    first_line_is_first();
    'lines: loop {
        let progress = reader.advance(src);
        let Progress::Line = progress else {
            let outcome = outcome_at_stop(checker, progress);
            return Ok(outcome);
        };
        let said = checker.line(reader.line())?;
        match said {
            Said::More => {}
            Said::Whole(verdict) => return Ok(Outcome::Yes(verdict)),
            Said::No { line, reason } => return Ok(Outcome::No { line, reason }),
        }
    }
}
