// The lines of a bundle between its dossiers, each with its number, from 1.
ghost use Rattle.std.specs.Prelude.{◌≡◌, ◌≤◌, ◌<◌, ◌+◌, ◌↔◌, [], ℕ, List, Ok, Err, Some, MatchResult, IfOk, IsTrue};
ghost use Rattle.crew_terms.specs.Words.{IsLine, words_of};
ghost use Rattle.crew_terms.specs.declared.TheConstants.{MOST_TASKS};
ghost use Rattle.crew_io.specs.Draws.{TellsReads};
ghost use Rattle.crew_io.specs.Io.{HasEnded};
ghost use Rattle.dossier_terms.specs.Dossier.{Dossier};
ghost use Rattle.dossier_commands.specs.Input.{IsGoing};
ghost use Rattle.line_in.specs.Faults.{reason_for};
ghost use Rattle.part_lines.specs.Faults.{IsCountFault, IsFirstFault};
ghost use Rattle.part_texts.specs.Bundle.{Bundle};
ghost use Rattle.part_texts.specs.Lines.{count_words, first_words};
ghost use Rattle.parts_reader.specs.Input.{InParts, IsBetween, IsPlace, PastDay};
ghost use Rattle.parts_reader.specs.Stages.{HaltsAt, HasCome, halt_of};

use crate::halt::Halt;
use crate::reason::BundleReason;
use crew_io::lines::{LineReader, Progress};
use crew_io::source::Source;
use dossier_terms::Reason;
use field_table::Cuts;
use line_in::LineFault;
use part_lines::{read_count, read_first};
use std::alloc::Global;
use text_laws::words_of_line;

/// What comes behind whole bundles.
#[derive(Clone, Copy, Debug, PartialEq, Eq)]
pub(crate) enum Begins {
    /// The first line of one more.
    Bundle,
    /// Nothing.
    End,
}

/// Why the line of this number does not come whole; None where it does.
fn halt_of(line: u64, progress: Progress) -> Option<Halt>
    ensures { result ≡ halt_of line progress }
{
    let cause = match progress {
        Progress::Line => return None,
        Progress::End { .. } => Reason::End,
        Progress::TooLong => Reason::TooLong,
        Progress::TooMuch => Reason::TooMuch,
        Progress::ReadFault => return Some(Halt::ReadFault),
    };
    let reason = BundleReason::Line(cause);
    Some(Halt::No { line, reason })
}

/// Why the line of this number is refused, which has this fault.
fn halt_for(line: u64, fault: LineFault) -> Halt
    ensures { result ≡ Halt.No line (BundleReason.Line (reason_for fault)) }
{
    let reason = BundleReason::Line(fault.reason());
    Halt::No { line, reason }
}

/// Whether the input has ended behind a bundle, after so many lines.
fn is_over(lines: u64, progress: Progress) -> bool
    ensures { IsTrue result ↔ ((0 < lines) × (progress ≡ Progress.End 0)) }
{
    lines > 0 && progress == (Progress::End { partial: 0 })
}

/// Reads the words of a bundle's first line, or tells their fault.
fn first_words(cuts: &mut Cuts, line: &[u8]) -> Result<(), LineFault>
    requires { IsLine line.now }
    ensures { MatchResult result (λ _. words_of line.now ≡ first_words)
        (IsFirstFault (words_of line.now)) }
{
    read_first(&cuts.split(line))
}

/// Reads the words of a line `parts`, or tells their first fault.
fn count_words(cuts: &mut Cuts, line: &[u8]) -> Result<u32, LineFault>
    requires { IsLine line.now }
    ensures { MatchResult result (λ k. (k ≤ MOST_TASKS) × (words_of line.now ≡ count_words k))
        (IsCountFault (words_of line.now)) }
{
    read_count(&cuts.split(line))
}

/// Reads the first line of a bundle, behind so many lines, or that nothing comes.
pub(crate) fn begin<S: Source>(
    alloc: Global,
    reader: &mut LineReader,
    lines: u64,
    src: &mut S,
) -> Result<Begins, Halt>
    requires { IsGoing reader.old lines }
    ensures going { result ≡ Ok Begins.Bundle → IsGoing reader.new (lines + 1) }
    ensures more { result ≡ Ok Begins.Bundle → reader.old.handed < reader.new.handed }
    ensures says { (input : List ℕ) (done : List Bundle)
        → IsBetween input done reader.old (S.left src.old) lines → MatchResult result
        (HasCome input done reader.new (S.left src.new) lines)
        (HaltsAt input done (S.left src.new)) }
    ensures ended { result ≡ Ok Begins.End → HasEnded (S.left src.new) }
    ensures tells { TellsReads S.Source src.old src.new (result ≡ Err Halt.ReadFault) }
{
    words_of_line();
    let mut cuts = Cuts::new(alloc)?;
    let progress = reader.advance(src);
    if is_over(lines, progress) {
        return Ok(Begins::End);
    }
    if let Some(halt) = halt_of(lines + 1, progress) {
        return Err(halt);
    }
    match first_words(&mut cuts, reader.line()) {
        Ok(()) => Ok(Begins::Bundle),
        Err(fault) => Err(halt_for(lines + 1, fault)),
    }
}

/// Reads the line `parts` behind the day's dossier, after so many lines, and gives how many parts there are.
pub(crate) fn count_parts<S: Source>(
    alloc: Global,
    reader: &mut LineReader,
    lines: u64,
    src: &mut S,
) -> Result<u32, Halt>
    requires { IsGoing reader.old lines }
    ensures few { IfOk result (λ k. k ≤ MOST_TASKS) }
    ensures going { IfOk result (λ _. IsGoing reader.new (lines + 1)) }
    ensures more { IfOk result (λ _. reader.old.handed < reader.new.handed) }
    ensures says { (input : List ℕ) (done : List Bundle) (day : Dossier)
        → IsPlace input done (PastDay day) reader.old (S.left src.old) lines → MatchResult result
        (λ k. IsPlace input done (InParts day k []) reader.new (S.left src.new) (lines + 1))
        (HaltsAt input done (S.left src.new)) }
    ensures tells { TellsReads S.Source src.old src.new (result ≡ Err Halt.ReadFault) }
{
    words_of_line();
    let mut cuts = Cuts::new(alloc)?;
    let progress = reader.advance(src);
    if let Some(halt) = halt_of(lines + 1, progress) {
        return Err(halt);
    }
    match count_words(&mut cuts, reader.line()) {
        Ok(parts) => Ok(parts),
        Err(fault) => Err(halt_for(lines + 1, fault)),
    }
}
