// An input, sheet by sheet and line by line.
ghost use Rattle.std.specs.Prelude.{◌≡◌, ℕ, List, Ok, IfOk, OnErr};
ghost use Rattle.crew_io.specs.Draws.{TellsReads};
ghost use Rattle.crew_io.specs.Io.{HasEnded};
ghost use Rattle.sheet_terms.specs.Sheet.{Sheet};
ghost use Rattle.sheet_checker.specs.Checked.{IsOpen as IsDue};
ghost use Rattle.sheet_checker.specs.declared.checker.State.TheVariants as state;
ghost use Rattle.sheet_commands.specs.Input.{IsBetween, CanGoOn, IsOutcome, IsOutcomeAtStop, OpensNext};

use crate::laws::whole_is_true;
use crew_io::lines::{LineReader, Progress};
use crew_io::source::Source;
use dossier_commands::input::stop_of;
use dossier_terms::Reason;
use sheet_checker::{SheetChecker, SheetSaid};
use sheet_texts::first_sheet_line_is_first;
use std::alloc::AllocError;

/// What comes next in an input.
#[derive(Clone, Copy, Debug, PartialEq, Eq)]
pub enum Outcome {
    /// A good sheet, by which every legal plan leaves at least `l` tasks unassigned.
    Yes { l: u32 },
    /// The input has ended behind a sheet.
    End,
    /// The first line that is refused, from 1, and why.
    No { line: u64, reason: Reason },
    /// A read failed.
    ReadFault,
}

/// The outcome where no line comes whole.
fn outcome_at_stop(checker: &mut SheetChecker, progress: Progress) -> Outcome
    requires { IsDue checker.old.at }
    ensures { IsOutcomeAtStop checker.old progress checker.new result }
{
    let Some(why) = stop_of(progress) else {
        return Outcome::ReadFault;
    };
    match checker.stopped(why) {
        Some(SheetSaid::No { line, reason }) => Outcome::No { line, reason },
        Some(_) => unreachable!(),
        None => Outcome::End,
    }
}

/// Reads the next sheet to its end.
pub fn next_sheet<S: Source>(
    reader: &mut LineReader,
    checker: &mut SheetChecker,
    src: &mut S,
) -> Result<Outcome, AllocError>
    requires { CanGoOn reader.old checker.old }
    // What it tells of an input that begins with these sheets is so.
    ensures outcome { IfOk result (λ outcome. (input : List ℕ) (done : List Sheet)
        → IsBetween input done reader.old (S.left src.old) checker.old
        → IsOutcome input done reader.new (S.left src.new) checker.new outcome) }

    // After a yes the reader and the checker can go on.
    ensures next { IfOk result (OpensNext reader.old reader.new checker.new) }
    ensures memory { OnErr result (checker.new.at ≡ state.Spent) }
    ensures ended { IfOk result (λ outcome. outcome ≡ Outcome.End → HasEnded (S.left src.new)) }
    ensures tells { TellsReads S.Source src.old src.new (result ≡ Ok Outcome.ReadFault) }
{
    whole_is_true();
    first_sheet_line_is_first();
    'lines: loop {
        let progress = reader.advance(src);
        let Progress::Line = progress else {
            let outcome = outcome_at_stop(checker, progress);
            return Ok(outcome);
        };
        let said = checker.line(reader.line())?;
        match said {
            SheetSaid::More => {}
            SheetSaid::Whole { l } => return Ok(Outcome::Yes { l }),
            SheetSaid::No { line, reason } => return Ok(Outcome::No { line, reason }),
        }
    }
}
