// The one dossier of an input, and that nothing comes after it.
ghost use Rattle.std.specs.Prelude.{◌≡◌, ℕ, List, [], Err, None, Some, MatchResult, IfOk};
ghost use Rattle.crew_io.specs.Draws.{TellsReads};
ghost use Rattle.crew_io.specs.Io.{HasEnded};
ghost use Rattle.crew_io.specs.Lines.{Advances};
ghost use Rattle.crew_io.specs.declared.lines.Progress.{Progress};
ghost use Rattle.dossier_commands.specs.Input.{CanGoOn, Front, IsBetween};
ghost use Rattle.delay_command.specs.Alone.{HaltsBehind, IsAlone, IsWholeAndTrue, halt_behind};

use cert_checker::Checker;
use crew_io::lines::{LineReader, Progress};
use crew_io::source::Source;
use dossier_commands::input::{Outcome, next_dossier};
use dossier_terms::Reason;
use late_lines::Halt;

/// Why more than the dossier is read, of which the line of this number would be the next one; None where the input has
/// ended.
fn halt_behind(line: u64, progress: Progress) -> Option<Halt>
    ensures { result ≡ halt_behind line progress }
{
    match progress {
        Progress::End { partial: 0 } => None,
        Progress::ReadFault => Some(Halt::ReadFault),
        _ => Some(Halt::No {
            line,
            reason: Reason::Shape,
        }),
    }
}

/// Reads on after the dossier: nothing may come, nor any part of the line of this number.
fn read_end<S: Source>(reader: &mut LineReader, line: u64, src: &mut S) -> Result<(), Halt>
    requires { reader.old.stopped ≡ None }
    ensures answer { (answer : Progress)
        × Advances reader.old (S.left src.old) answer reader.new (S.left src.new)
        × MatchResult result (λ _. halt_behind line answer ≡ None)
        (λ halt. halt_behind line answer ≡ Some halt) }
    ensures tells { TellsReads S.Source src.old src.new (result ≡ Err Halt.ReadFault) }
{
    let progress = reader.advance(src);
    match halt_behind(line, progress) {
        Some(halt) => Err(halt),
        None => Ok(()),
    }
}

/// Reads one dossier, and that nothing comes after it.
pub(crate) fn read_alone<S: Source>(
    reader: &mut LineReader,
    checker: &mut Checker,
    src: &mut S,
) -> Result<(), Halt>
    requires { CanGoOn reader.old checker.old }
    ensures whole { IfOk result (λ _. IsWholeAndTrue checker.new) }
    ensures says { (front : Front) (input : List ℕ)
        → IsBetween front input [] reader.old (S.left src.old) checker.old
        → MatchResult result (λ _. IsAlone front input checker.new)
        (HaltsBehind front input (S.left src.new)) }
    ensures ended { IfOk result (λ _. HasEnded (S.left src.new)) }
    ensures tells { TellsReads S.Source src.old src.new (result ≡ Err Halt.ReadFault) }
{
    let outcome = next_dossier(reader, checker, src)?;
    match outcome {
        Outcome::Yes(_) => read_end(reader, checker.lines() + 1, src),
        Outcome::No { line, reason } => Err(Halt::No { line, reason }),
        // No input that is told ends so, before its first dossier.
        Outcome::End => Err(Halt::No {
            line: checker.lines() + 1,
            reason: Reason::End,
        }),
        Outcome::ReadFault => Err(Halt::ReadFault),
    }
}
