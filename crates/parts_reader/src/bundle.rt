// One bundle.
ghost use Rattle.std.specs.Prelude.{◌≡◌, ◌<◌, ◌+◌, ℕ, List, Ok, Err, None, IfOk, MatchResult, MatchOption, max};
ghost use Rattle.crew_io.specs.Draws.{TellsReads};
ghost use Rattle.crew_io.specs.Io.{HasEnded};
ghost use Rattle.dossier_commands.specs.Input.{IsGoing};
ghost use Rattle.part_texts.specs.Bundle.{Bundle};
ghost use Rattle.parts_reader.specs.Input.{InDay, IsBetween, IsNextBundle, IsOutcome, IsPlace, OpensNext};
ghost use Rattle.parts_reader.specs.Stages.{HaltsAt, IsFound, IsFoundNext};

use crate::dossier::read_dossier;
use crate::halt::Halt;
use crate::line::{Begins, begin, count_parts};
use crate::parts::{Tally, add_parts};
use crate::reason::BundleReason;
use crew_io::lines::LineReader;
use crew_io::source::Source;
use part_match::Taken;
use part_texts::good_bundles_are_true;
use std::alloc::{AllocError, Global};

/// What a good bundle says: how many tasks the day's plan leaves unassigned, how many every legal plan leaves at least, and
/// the number of parts.
#[derive(Clone, Copy, Debug, PartialEq, Eq)]
pub struct BundleVerdict {
    pub unassigned: u32,
    pub bound: u64,
    pub parts: u32,
}

/// What comes next in an input.
#[derive(Clone, Copy, Debug, PartialEq, Eq)]
pub enum Outcome {
    /// A good bundle, which says this.
    Yes(BundleVerdict),
    /// The input has ended behind a bundle.
    End,
    /// The first line that is refused, from 1, and why.
    No { line: u64, reason: BundleReason },
    /// A read failed.
    ReadFault,
}

/// What a bundle that is whole says, and the number of lines that are read to its end.
#[derive(Clone, Copy, Debug, PartialEq, Eq)]
struct WholeBundle {
    verdict: BundleVerdict,
    lines: u64,
}

/// The larger one of two numbers.
fn larger(a: u64, b: u64) -> u64
    ensures { result ≡ max a b }
{
    if a < b { b } else { a }
}

/// Reads a bundle behind its first line, behind so many lines.
fn read_bundle<S: Source>(
    alloc: Global,
    reader: &mut LineReader,
    lines: u64,
    src: &mut S,
) -> Result<WholeBundle, Halt>
    requires { IsGoing reader.old lines }
    ensures going { IfOk result (λ whole. IsGoing reader.new whole.lines) }
    ensures more { IfOk result (λ _. reader.old.handed < reader.new.handed) }
    ensures says { (input : List ℕ) (done : List Bundle)
        → IsPlace input done InDay reader.old (S.left src.old) lines → MatchResult result
        (λ whole. IsNextBundle input done whole.verdict reader.new (S.left src.new) whole.lines)
        (HaltsAt input done (S.left src.new)) }
    ensures tells { TellsReads S.Source src.old src.new (result ≡ Err Halt.ReadFault) }
{
    good_bundles_are_true();
    let day = read_dossier(alloc, reader, lines, src)?;
    let behind = day.checker.lines();
    let parts = count_parts(alloc, reader, behind, src)?;
    let mut tally = Tally {
        taken: Taken::new(alloc),
        bounds: 0,
        lines: behind + 1,
    };
    add_parts(
        alloc,
        day.checker.instance(),
        parts,
        reader,
        &mut tally,
        src,
    )?;
    let verdict = BundleVerdict {
        unassigned: day.verdict.unassigned,
        bound: larger(day.verdict.bound as u64, tally.bounds),
        parts,
    };
    Ok(WholeBundle {
        verdict,
        lines: tally.lines,
    })
}

/// Reads the next bundle behind so many lines; None where nothing comes.
fn read_next<S: Source>(
    alloc: Global,
    reader: &mut LineReader,
    lines: u64,
    src: &mut S,
) -> Result<Option<WholeBundle>, Halt>
    requires { IsGoing reader.old lines }
    ensures next { IfOk result (λ found. IsFoundNext reader.old reader.new found) }
    ensures says { (input : List ℕ) (done : List Bundle)
        → IsBetween input done reader.old (S.left src.old) lines → MatchResult result
        (IsFound input done reader.new (S.left src.new))
        (HaltsAt input done (S.left src.new)) }
    ensures ended { result ≡ Ok None → HasEnded (S.left src.new) }
    ensures tells { TellsReads S.Source src.old src.new (result ≡ Err Halt.ReadFault) }
{
    match begin(alloc, reader, lines, src)? {
        Begins::Bundle => {
            let whole = read_bundle(alloc, reader, lines + 1, src)?;
            Ok(Some(whole))
        }
        Begins::End => Ok(None),
    }
}

/// Reads the next bundle to its end, behind so many lines, which then are those that are read up to there. After any answer
/// but a yes the reading is over.
pub fn next_bundle<S: Source>(
    alloc: Global,
    reader: &mut LineReader,
    lines: &mut u64,
    src: &mut S,
) -> Result<Outcome, AllocError>
    requires { IsGoing reader.old lines.old }
    // What it tells of an input that begins with these bundles is so.
    ensures outcome { IfOk result (λ outcome. (input : List ℕ) (done : List Bundle)
        → IsBetween input done reader.old (S.left src.old) lines.old
        → IsOutcome input done reader.new (S.left src.new) lines.new outcome) }

    // After a yes the reader can go on.
    ensures next { IfOk result (OpensNext reader.old reader.new lines.new) }
    ensures ended { IfOk result (λ outcome. outcome ≡ Outcome.End → HasEnded (S.left src.new)) }
    ensures tells { TellsReads S.Source src.old src.new (result ≡ Ok Outcome.ReadFault) }
{
    match read_next(alloc, reader, *lines, src) {
        Ok(Some(whole)) => {
            *lines = whole.lines;
            Ok(Outcome::Yes(whole.verdict))
        }
        Ok(None) => Ok(Outcome::End),
        Err(Halt::No { line, reason }) => Ok(Outcome::No { line, reason }),
        Err(Halt::ReadFault) => Ok(Outcome::ReadFault),
        Err(Halt::OutOfMemory) => Err(AllocError),
    }
}
