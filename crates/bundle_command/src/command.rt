// The commands that write a text for each good dossier of an input.
ghost use Rattle.std.specs.Prelude.{◌≡◌, ◌↔◌, IsTrue};
ghost use Rattle.crew_terms.specs.declared.TheConstants.{LONGEST_INPUT};
ghost use Rattle.crew_io.specs.Lines.{fresh_reader};
ghost use Rattle.cert_checker.specs.Checked.{IsEnded, fresh_checker};
ghost use Rattle.bundle_write.specs.Pieces.{IsWithin};
ghost use Rattle.bundle_command.specs.Days.{IsToldBy};
ghost use Rattle.bundle_command.specs.Says.{WritesPieces, ended_where};

use bundle_write::{Day, Job, PutFault, put_piece};
use cert_checker::{Checker, Verdict};
use crew_io::lines::LineReader;
use crew_io::sink::{Sink, WriteFault};
use crew_io::source::Source;
use crew_terms::LONGEST_INPUT;
use dossier_commands::input::Outcome;
use dossier_commands::kept::next_kept;
use dossier_commands::laws::refused_is_not_accepted;
use dossier_commands::texts::put_no;
use std::alloc::{AllocError, Global};

/// How the writing for dossiers ended.
#[derive(Clone, Copy, Debug, PartialEq, Eq)]
pub enum PiecesEnded {
    /// The input is good dossiers, to its end, and nothing that was planned leaves open whether another plan does more tasks.
    Proved,
    /// The input is good dossiers, to its end, and something leaves that open.
    Open,
    /// A line is refused.
    No,
    /// A read failed.
    ReadFault,
    /// A write failed.
    WriteFault,
}

/// How it ended where all dossiers are good.
fn ended_where(proved: bool) -> PiecesEnded
    ensures { result ≡ ended_where proved }
{
    if proved {
        PiecesEnded::Proved
    } else {
        PiecesEnded::Open
    }
}

/// Whether both hold.
fn are_both(before: bool, now: bool) -> bool
    ensures { IsTrue result ↔ (IsTrue before × IsTrue now) }
{
    before && now
}

/// What is told of the dossier that a checker has read, of which this is said and which has this text.
fn day_of<'a>(checker: &'a Checker, verdict: &Verdict, text: &'a [u8]) -> Day<'a>
    requires { IsEnded checker.now.at }
    ensures { IsToldBy checker.now verdict.now text.now result }
{
    Day {
        instance: checker.instance(),
        text,
        unassigned: verdict.unassigned,
        bound: verdict.bound,
    }
}

/// Reads one dossier after another, and writes for each what is to be written of it; or writes the no line of the first line that
/// is refused. After a write fault a front of what was due was written.
pub fn write_pieces<S: Source, K: Sink>(
    alloc: Global,
    job: Job,
    src: &mut S,
    out: &mut K,
) -> Result<PiecesEnded, AllocError>
    requires { IsWithin job }
    ensures { WritesPieces S.Source K.Sink job src.old src.new out.old out.new result }
{
    let mut reader = LineReader::open(alloc, LONGEST_INPUT)?;
    let mut checker = Checker::open(alloc)?;
    let ended = write_all(alloc, &mut reader, &mut checker, job, src, out);
    // By name, so that its many parts are let go of in one call.
    drop(checker);
    ended
}

/// The same with a reader and a checker that have read nothing yet.
fn write_all<S: Source, K: Sink>(
    alloc: Global,
    reader: &mut LineReader,
    checker: &mut Checker,
    job: Job,
    src: &mut S,
    out: &mut K,
) -> Result<PiecesEnded, AllocError>
    requires job { IsWithin job }
    requires reader { reader.old ≡ fresh_reader LONGEST_INPUT }
    requires checker { checker.old ≡ fresh_checker }
    ensures { WritesPieces S.Source K.Sink job src.old src.new out.old out.new result }
{
    refused_is_not_accepted();
    let mut kept = Vec::new(alloc);
    let mut proved = true;
    'dossiers: loop {
        match next_kept(reader, checker, src, &mut kept)? {
            Outcome::Yes(verdict) => {
                let day = day_of(checker, &verdict, &kept);
                match put_piece(alloc, job, &day, out) {
                    Ok(now) => proved = are_both(proved, now),
                    Err(PutFault::WriteFault) => return Ok(PiecesEnded::WriteFault),
                    Err(PutFault::OutOfMemory) => return Err(AllocError),
                }
            }
            Outcome::End => return Ok(ended_where(proved)),
            Outcome::No { line, reason } => {
                if let Err(WriteFault) = put_no(out, line, reason) {
                    return Ok(PiecesEnded::WriteFault);
                }
                return Ok(PiecesEnded::No);
            }
            Outcome::ReadFault => return Ok(PiecesEnded::ReadFault),
        }
    }
}
