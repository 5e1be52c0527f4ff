// Dossiers, read one after another.
ghost use Rattle.std.specs.Prelude.{◌≡◌, ◌^◌, IsErr};
ghost use Rattle.crew_terms.specs.declared.TheConstants.{LONGEST_INPUT};
ghost use Rattle.crew_io.specs.Lines.{fresh_reader};
ghost use Rattle.cert_checker.specs.Checked.{fresh_checker};
ghost use Rattle.dossier_commands.specs.Outputs.{output_of};
ghost use Rattle.dossier_commands.specs.Says.{ReadsDossiers};

use crate::input::{Outcome, next_dossier};
use crate::laws::refused_is_not_accepted;
use crate::output::Output;
use crate::texts::{put_no, put_output};
use cert_checker::Checker;
use crew_io::lines::LineReader;
use crew_io::sink::{Sink, WriteFault};
use crew_io::source::Source;
use crew_terms::LONGEST_INPUT;
use std::alloc::{AllocError, Global};

/// How a command over dossiers ended.
#[derive(Clone, Copy, Debug, PartialEq, Eq)]
pub enum Ended {
    /// The input is good dossiers, to its end.
    Done,
    /// A line is refused.
    No,
    /// A read failed.
    ReadFault,
    /// A write failed.
    WriteFault,
}

/// Reads one dossier after another, and writes what is asked for of each, or the no line of the first line that is
/// refused.
pub fn read_dossiers<S: Source, K: Sink>(
    alloc: Global,
    output: Output,
    src: &mut S,
    out: &mut K,
) -> Result<Ended, AllocError>
    ensures { ReadsDossiers S.Source K.Sink
        (output_of output) src.old src.new out.old out.new result }
{
    let mut reader = LineReader::open(alloc, LONGEST_INPUT)?;
    let mut checker = Checker::open(alloc)?;
    let ended = read_all(&mut reader, &mut checker, output, src, out);
    // By name, so that its many parts are let go of in one call.
    drop(checker);
    ended
}

/// Reads all dossiers with a reader and a checker that have read nothing yet.
fn read_all<S: Source, K: Sink>(
    reader: &mut LineReader,
    checker: &mut Checker,
    output: Output,
    src: &mut S,
    out: &mut K,
) -> Result<Ended, AllocError>
    requires reader { reader.old ≡ fresh_reader LONGEST_INPUT }
    requires checker { checker.old ≡ fresh_checker }
    ensures { ReadsDossiers S.Source K.Sink
        (output_of output) src.old src.new out.old out.new result }
{
    refused_is_not_accepted();
    'dossiers: loop {
        match next_dossier(reader, checker, src)? {
            Outcome::Yes(verdict) => {
                if let Err(WriteFault) = put_output(out, output, checker, verdict) {
                    return Ok(Ended::WriteFault);
                }
            }
            Outcome::End => return Ok(Ended::Done),
            Outcome::No { line, reason } => {
                if let Err(WriteFault) = put_no(out, line, reason) {
                    return Ok(Ended::WriteFault);
                }
                return Ok(Ended::No);
            }
            Outcome::ReadFault => return Ok(Ended::ReadFault),
        }
    }
}
