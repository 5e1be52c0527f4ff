// The day in front of the dossiers: its lines, up to the line `dossiers`.
ghost use Rattle.std.specs.Prelude.{◌≡◌, ◌≤◌, ◌↔◌, ◌++◌, ℕ, List, Some, Ok, IfOk, IfSome, IsTrue, vec_len};
ghost use Rattle.crew_terms.specs.Words.{with_feed};
ghost use Rattle.crew_terms.specs.declared.TheConstants.{LONGEST_DAY, LONGEST_INPUT};
ghost use Rattle.crew_io.specs.Draws.{TellsReads};
ghost use Rattle.crew_io.specs.Lines.{fresh_reader};
ghost use Rattle.audit_command.specs.Days.{dossiers_line};
ghost use Rattle.audit_command.specs.Reads.{GoesOnBehind, IsKept, IsPart, part_at, part_of};

use cert_checker::Stop;
use crew_io::lines::{LineReader, Progress};
use crew_io::source::Source;
use crew_terms::LONGEST_DAY;
use std::alloc::{AllocError, Global};

/// What comes before the dossiers.
#[derive(Drop)]
pub enum DayPart {
    /// The text of a day, and the line `dossiers`.
    Text(Vec<u8>),
    /// A day whose text is longer than it may be, and that line.
    TooLong,
    /// No line `dossiers` comes, and why.
    NoDossiers(Stop),
    /// A read failed.
    ReadFault,
}

/// The line behind a day.
const DOSSIERS: &[u8] = b"dossiers";

/// Whether the line is the one behind a day.
fn is_behind_day(line: &[u8]) -> bool
    ensures { IsTrue result ↔ (line.now ≡ dossiers_line) }
{
    line == DOSSIERS
}

/// What comes where no line does.
fn part_at_stop(progress: Progress) -> DayPart
    ensures { result ≡ part_at progress }
{
    match progress {
        Progress::End { partial } => DayPart::NoDossiers(Stop::End { partial }),
        Progress::TooLong => DayPart::NoDossiers(Stop::TooLong),
        Progress::TooMuch => DayPart::NoDossiers(Stop::TooMuch),
        Progress::Line | Progress::ReadFault => DayPart::ReadFault,
    }
}

/// The text of a day, as far as it was read; None where it is longer than it may be.
type DayText = Option<Vec<u8>>;

/// What comes where the line `dossiers` does.
fn part_of(text: DayText) -> DayPart
    ensures { result ≡ part_of text }
{
    match text {
        Some(text) => DayPart::Text(text),
        None => DayPart::TooLong,
    }
}

/// Adds a line with its LF to the text.
fn with_line(text: DayText, line: &[u8]) -> Result<DayText, AllocError>
    requires { IfSome text (λ text. vec_len text ≤ LONGEST_DAY) }
    ensures { (whole : List ℕ) → IsKept text whole → IfOk result (λ new.
        IsKept new (whole ++ with_feed line.now)) }
{
    let Some(mut text) = text else {
        return Ok(None);
    };
    if line.len() >= LONGEST_DAY - text.len() {
        return Ok(None);
    }
    text.extend_from_slice(line)?;
    text.push(b'\n')?;
    Ok(Some(text))
}

/// Reads the lines of a day, and the line `dossiers` behind them.
pub(crate) fn read_day_part<S: Source>(
    alloc: Global,
    reader: &mut LineReader,
    src: &mut S,
) -> Result<DayPart, AllocError>
    requires { reader.old ≡ fresh_reader LONGEST_INPUT }
    ensures part { IfOk result (λ part. (input : List ℕ) → S.left src.old ≡ Some input
        → IsPart input part reader.new (S.left src.new)) }
    ensures goes_on { IfOk result (λ part. GoesOnBehind part reader.new) }
    ensures tells { TellsReads S.Source src.old src.new (result ≡ Ok DayPart.ReadFault) }
{
    let mut text = Some(Vec::new(alloc));
    'lines: loop {
        let progress = reader.advance(src);
        let Progress::Line = progress else {
            return Ok(part_at_stop(progress));
        };
        if is_behind_day(reader.line()) {
            return Ok(part_of(text));
        }
        text = with_line(text, reader.line())?;
    }
}
