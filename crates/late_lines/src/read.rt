// The lines before a dossier, read.
ghost use Rattle.std.specs.Prelude.{◌≡◌, ◌+◌, ◌↔◌, ℕ, List, Some, None, Err, length, IfOk, OnErr, MatchResult};
ghost use Rattle.crew_terms.specs.Words.{IsLine, words_of};
ghost use Rattle.crew_terms.specs.declared.TheConstants.{LONGEST_INPUT};
ghost use Rattle.crew_io.specs.Draws.{TellsReads};
ghost use Rattle.crew_io.specs.Lines.{fresh_reader};
ghost use Rattle.dossier_commands.specs.Input.{IsGoing};
ghost use Rattle.late_lines.specs.Lines.{AreLateLines, IsLineFault, IsRead, first_lines};
ghost use Rattle.late_lines.specs.First.{IsAfter, HaltsFirst, halt_of};

use crate::first_line::{FirstLine, LateLine, read_first};
use crate::halt::Halt;
use crew_io::lines::{LineReader, Progress};
use crew_io::source::Source;
use dossier_terms::Reason;
use field_table::Cuts;
use line_in::LineFault;
use std::alloc::Global;
use text_laws::words_of_line;

/// Why the line of this number does not come whole; None where it does.
fn halt_of(line: u64, progress: Progress) -> Option<Halt>
    ensures { result ≡ halt_of line progress }
{
    match progress {
        Progress::Line => None,
        Progress::End { .. } => Some(Halt::No {
            line,
            reason: Reason::End,
        }),
        Progress::TooLong => Some(Halt::No {
            line,
            reason: Reason::TooLong,
        }),
        Progress::TooMuch => Some(Halt::No {
            line,
            reason: Reason::TooMuch,
        }),
        Progress::ReadFault => Some(Halt::ReadFault),
    }
}

/// Reads a line before the dossier, after these, or tells its first fault.
fn read_line(cuts: &mut Cuts, line: &[u8], before: &[LateLine]) -> Result<FirstLine, LineFault>
    requires { IsLine line.now }
    ensures { MatchResult result (IsRead before.now (words_of line.now))
        (IsLineFault before.now (words_of line.now)) }
{
    read_first(cuts.split(line), before)
}

/// Reads the lines before a dossier, with the line `dossier`, by a reader that has read nothing yet. It answers
/// No at the first line that is refused: for a fault of its words, or where it does not come whole.
pub fn read_lates<S: Source>(
    alloc: Global,
    reader: &mut LineReader,
    src: &mut S,
) -> Result<Vec<LateLine>, Halt>
    requires { reader.old ≡ fresh_reader LONGEST_INPUT }
    ensures lines { IfOk result (λ lates. AreLateLines lates.items) }
    ensures going { IfOk result (λ lates. IsGoing reader.new (length lates.items + 1)) }
    ensures says { (input : List ℕ) → S.left src.old ≡ Some input → MatchResult result
        (λ lates. IsAfter (first_lines lates.items) input reader.new (S.left src.new))
        (HaltsFirst input (S.left src.new)) }
    ensures tells { TellsReads S.Source src.old src.new (result ≡ Err Halt.ReadFault) }
{
    words_of_line();
    let mut cuts = Cuts::new(alloc)?;
    let mut lates = Vec::new(alloc);
    'lines: loop {
        let line = lates.len() as u64 + 1;
        let progress = reader.advance(src);
        if let Some(halt) = halt_of(line, progress) {
            return Err(halt);
        }
        match read_line(&mut cuts, reader.line(), &lates) {
            Ok(FirstLine::Late(late)) => lates.push(late)?,
            Ok(FirstLine::Dossier) => return Ok(lates),
            Err(fault) => {
                return Err(Halt::No {
                    line,
                    reason: fault.reason(),
                });
            }
        }
    }
}
