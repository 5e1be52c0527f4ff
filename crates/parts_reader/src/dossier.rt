// One dossier of a bundle.
ghost use Rattle.std.specs.Prelude.{◌≡◌, ℕ, List, Err, IfOk, MatchResult};
ghost use Rattle.crew_io.specs.Draws.{TellsReads};
ghost use Rattle.dossier_commands.specs.Input.{IsGoing};
ghost use Rattle.part_texts.specs.Bundle.{Bundle};
ghost use Rattle.parts_reader.specs.Input.{Begun, IsDossierDue, IsPlace};
ghost use Rattle.parts_reader.specs.Stages.{HaltsAt, IsDossierRead, IsPastDossier};

use crate::halt::Halt;
use crate::reason::BundleReason;
use cert_checker::{Checker, Verdict};
use crew_io::lines::LineReader;
use crew_io::source::Source;
use dossier_commands::input::{Outcome, next_dossier};
use dossier_terms::Reason;
use std::alloc::Global;

/// A checker whose dossier is whole, and what that one says.
#[derive(Drop)]
pub(crate) struct WholeDossier {
    pub(crate) checker: Checker,
    pub(crate) verdict: Verdict,
}

/// Reads one dossier behind so many lines, with a checker of its own.
pub(crate) fn read_dossier<S: Source>(
    alloc: Global,
    reader: &mut LineReader,
    lines: u64,
    src: &mut S,
) -> Result<WholeDossier, Halt>
    requires { IsGoing reader.old lines }
    ensures past { IfOk result (IsPastDossier reader.old reader.new) }
    ensures says { (input : List ℕ) (done : List Bundle) (begun : Begun) → IsDossierDue begun
        → IsPlace input done begun reader.old (S.left src.old) lines → MatchResult result
        (IsDossierRead input done begun reader.new (S.left src.new))
        (HaltsAt input done (S.left src.new)) }
    ensures tells { TellsReads S.Source src.old src.new (result ≡ Err Halt.ReadFault) }
{
    let mut checker = Checker::open_at(alloc, lines)?;
    let outcome = next_dossier(reader, &mut checker, src)?;
    match outcome {
        Outcome::Yes(verdict) => Ok(WholeDossier { checker, verdict }),
        Outcome::No { line, reason } => {
            let reason = BundleReason::Line(reason);
            Err(Halt::No { line, reason })
        }
        // No input that is told ends so, where a dossier is due.
        Outcome::End => {
            let reason = BundleReason::Line(Reason::End);
            Err(Halt::No {
                line: lines + 1,
                reason,
            })
        }
        Outcome::ReadFault => Err(Halt::ReadFault),
    }
}
