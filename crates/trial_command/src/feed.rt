// What comes of the bytes of a dossier that a checker is fed with.
ghost use Rattle.std.specs.Prelude.{◌≡◌, ◌≤◌, ◌<◌, ◌++◌, [], ◌∷◌, ℕ, List, IfOk, length, take};
ghost use Rattle.crew_io.specs.Lines.{IsLineLength};
ghost use Rattle.trial_command.specs.Findings.{AreLines, Holds, finding_of};

use crate::laws::{dossiers_begin_none, lines_are_judged, lines_are_short};
use crate::line_front::LineFront;
use cert_checker::{Checker, Said, Verdict};
use crew_terms::LONGEST_INPUT;
use memchr::memchr;
use std::alloc::AllocError;

/// What the bytes are found to be that were written so far.
#[derive(Clone, Copy)]
pub(crate) enum Finding {
    /// Lines of a dossier, which are judged, and the front of the next line.
    Lines,
    /// A good dossier, which says this.
    Whole(Verdict),
    /// No good dossier begins with them.
    Refused,
}

/// How many bytes of a piece are taken, and what they and those before them are found to be.
#[derive(Clone, Copy)]
pub(crate) struct Fed {
    pub(crate) taken: usize,
    pub(crate) finding: Finding,
}

/// How many bytes stand before the first LF, or all of them.
fn first_feed(bytes: &[u8]) -> usize
    ensures { IsLineLength bytes.now result }
{
    memchr(b'\n', bytes).unwrap_or(bytes.len())
}

/// What the bytes are found to be behind a line of which the checker says this.
fn finding_of(said: Said) -> Finding
    ensures { result ≡ finding_of said }
{
    match said {
        Said::More => Finding::Lines,
        Said::Whole(verdict) => Finding::Whole(verdict),
        Said::No { .. } => Finding::Refused,
    }
}

/// Judges the line that is whole with its LF, and begins the next one. AllocError for want of memory, and behind 2^62 lines.
fn judge(checker: &mut Checker, front: &mut LineFront) -> Result<Finding, AllocError>
    ensures { (bytes : List ℕ) → AreLines bytes front.old checker.old →
        IfOk result (λ finding. Holds finding (bytes ++ 10 ∷ []) front.new checker.new) }
{
    lines_are_judged();
    if checker.lines() >= LONGEST_INPUT {
        return Err(AllocError);
    }
    let said = checker.line(front.bytes())?;
    front.clear();
    Ok(finding_of(said))
}

/// Takes the front of the piece behind lines of a dossier and the front of one more: up to its first LF, or all of it.
/// AllocError for want of memory, and behind 2^62 lines.
fn feed(checker: &mut Checker, front: &mut LineFront, piece: &[u8]) -> Result<Fed, AllocError>
    ensures fits { IfOk result (λ fed. fed.taken ≤ length piece.now) }
    ensures some { IfOk result (λ fed. 0 < length piece.now → 0 < fed.taken) }
    ensures finding { (bytes : List ℕ) → AreLines bytes front.old checker.old → IfOk result
        (λ fed. Holds fed.finding (bytes ++ take fed.taken piece.now) front.new checker.new) }
{
    lines_are_short();
    let until = first_feed(piece);
    if until > front.room() {
        return Ok(Fed {
            taken: until,
            finding: Finding::Refused,
        });
    }
    front.add(&piece[..until])?;
    if until == piece.len() {
        return Ok(Fed {
            taken: until,
            finding: Finding::Lines,
        });
    }
    Ok(Fed {
        taken: until + 1,
        finding: judge(checker, front)?,
    })
}

/// Takes the front of the piece behind bytes that were found to be this. AllocError for want of memory, and behind 2^62 lines.
pub(crate) fn take(
    checker: &mut Checker,
    front: &mut LineFront,
    finding: Finding,
    piece: &[u8],
) -> Result<Fed, AllocError>
    ensures fits { IfOk result (λ fed. fed.taken ≤ length piece.now) }
    ensures some { IfOk result (λ fed. 0 < length piece.now → 0 < fed.taken) }
    ensures finding { (bytes : List ℕ) → Holds finding bytes front.old checker.old → IfOk result
        (λ fed. Holds fed.finding (bytes ++ take fed.taken piece.now) front.new checker.new) }
{
    dossiers_begin_none();
    let finding = match finding {
        Finding::Lines => return feed(checker, front, piece),
        Finding::Whole(_) if !piece.is_empty() => Finding::Refused,
        finding => finding,
    };
    Ok(Fed {
        taken: piece.len(),
        finding,
    })
}
