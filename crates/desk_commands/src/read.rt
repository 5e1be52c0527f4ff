// Dossiers, read one after another, each with what is kept of the one before.
ghost use Rattle.std.specs.Prelude.{◌≡◌};
ghost use Rattle.crew_terms.specs.declared.TheConstants.{LONGEST_INPUT};
ghost use Rattle.crew_io.specs.Lines.{fresh_reader};
ghost use Rattle.cert_checker.specs.Checked.{fresh_checker};
ghost use Rattle.desk_commands.specs.Rounds.{end_of};
ghost use Rattle.desk_commands.specs.Says.{Finishes, ReadsDesk};

use crate::output::DeskOutput;
use crate::texts::{note_dossier, put_first, put_last, put_round};
use cert_checker::Checker;
use crew_io::lines::LineReader;
use crew_io::sink::{Sink, WriteFault};
use crew_io::source::Source;
use crew_terms::LONGEST_INPUT;
use dossier_commands::input::{Outcome, next_dossier};
use dossier_commands::laws::refused_is_not_accepted;
use dossier_terms::Reason;
use round_changes::Round;
use std::alloc::{AllocError, Global};

/// The first line that is refused, from 1, and why.
#[derive(Clone, Copy, Debug, PartialEq, Eq)]
pub struct Refusal {
    pub line: u64,
    pub reason: Reason,
}

/// How a command of the desk over dossiers ended.
#[derive(Clone, Copy, Debug, PartialEq, Eq)]
pub enum Ended {
    /// The input is good dossiers, to its end.
    Done,
    /// A line is refused.
    No(Refusal),
    /// A read failed.
    ReadFault,
    /// A write failed.
    WriteFault,
}

/// Reads one dossier after another, and writes what is asked for of the good ones: all of it where the input is good dossiers to its
/// end, and where a line is refused all of it for the dossiers before. Of the line that is refused it tells and writes nothing.
pub fn read_desk<S: Source, K: Sink>(
    alloc: Global,
    output: DeskOutput,
    src: &mut S,
    out: &mut K,
) -> Result<Ended, AllocError>
    ensures { ReadsDesk S.Source K.Sink output src.old src.new out.old out.new result }
{
    let mut reader = LineReader::open(alloc, LONGEST_INPUT)?;
    let mut checker = Checker::open(alloc)?;
    let ended = read_all(alloc, &mut reader, &mut checker, output, src, out);
    drop(checker);
    ended
}

/// Writes what comes after this many rounds, and ends so, or with a fault of that write.
fn finish<K: Sink>(out: &mut K, output: DeskOutput, rounds: u64, ended: Ended) -> Ended
    ensures { Finishes K.Sink (end_of output rounds) ended out.old out.new result }
{
    match put_last(out, output, rounds) {
        Ok(()) => ended,
        Err(WriteFault) => Ended::WriteFault,
    }
}

/// Reads all dossiers with a reader and a checker that have read nothing yet.
fn read_all<S: Source, K: Sink>(
    alloc: Global,
    reader: &mut LineReader,
    checker: &mut Checker,
    output: DeskOutput,
    src: &mut S,
    out: &mut K,
) -> Result<Ended, AllocError>
    requires reader { reader.old ≡ fresh_reader LONGEST_INPUT }
    requires checker { checker.old ≡ fresh_checker }
    ensures { ReadsDesk S.Source K.Sink output src.old src.new out.old out.new result }
{
    refused_is_not_accepted();
    let mut before: Option<Round> = None;
    let mut rounds = 0u64;
    if let Err(WriteFault) = put_first(out, output) {
        return Ok(Ended::WriteFault);
    }
    'dossiers: loop {
        match next_dossier(reader, checker, src)? {
            Outcome::Yes(verdict) => {
                let now = note_dossier(alloc, checker, verdict)?;
                rounds += 1;
                if let Err(WriteFault) = put_round(
                    out, output, rounds, &before, &now, checker, verdict,
                ) {
                    return Ok(Ended::WriteFault);
                }
                before = Some(now);
            }
            Outcome::End => return Ok(finish(out, output, rounds, Ended::Done)),
            Outcome::No { line, reason } => {
                let refusal = Refusal { line, reason };
                return Ok(finish(out, output, rounds, Ended::No(refusal)));
            }
            Outcome::ReadFault => return Ok(Ended::ReadFault),
        }
    }
}
