// The next dossier of an input, whose bytes are kept.
ghost use Rattle.std.specs.Prelude.{◌≡◌, ◌++◌, ℕ, List, Ok, IfOk};
ghost use Rattle.crew_terms.specs.Words.{with_feed};
ghost use Rattle.crew_io.specs.Draws.{TellsReads};
ghost use Rattle.crew_io.specs.Io.{HasEnded};
ghost use Rattle.dossier_terms.specs.Dossier.{Dossier};
ghost use Rattle.dossier_commands.specs.Input.{Front, IsBetween, CanGoOn, IsOutcome, KeepsDossier, OpensNext};

use crate::input::{Outcome, outcome_at_stop};
use crate::laws::{first_line_is_first, whole_is_true};
use cert_checker::{Checker, Said, laws};
use crew_io::lines::{LineReader, Progress};
use crew_io::source::Source;
use std::alloc::AllocError;

/// Keeps a line with its LF behind what is kept.
fn keep_line(kept: &mut Vec<u8>, line: &[u8]) -> Result<(), AllocError>
    ensures { IfOk result (λ _. kept.new.items ≡ kept.old.items ++ with_feed line.now) }
{
    kept.extend_from_slice(line)?;
    kept.push(b'\n')?;
    Ok(())
}

/// Reads the next dossier to its end, as `next_dossier` does, and keeps its bytes in place of those that were kept. AllocError
/// where there is no memory for them.
pub fn next_kept<S: Source>(
    reader: &mut LineReader,
    checker: &mut Checker,
    src: &mut S,
    kept: &mut Vec<u8>,
) -> Result<Outcome, AllocError>
    requires { CanGoOn reader.old checker.old }
    // What it tells of an input that begins with this front and these dossiers is so.
    ensures outcome { IfOk result (λ outcome.
        (front : Front) (input : List ℕ) (done : List Dossier)
        → IsBetween front input done reader.old (S.left src.old) checker.old
        → IsOutcome front input done reader.new (S.left src.new) checker.new outcome) }

    // After a yes the checker has a good dossier, with a legal plan and a bound that no legal plan goes below.
    ensures next { IfOk result (OpensNext reader.old reader.new checker.new) }

    // After a yes what is kept are the bytes of the dossier.
    ensures kept { IfOk result
        (KeepsDossier reader.old (S.left src.old) kept.new.items reader.new (S.left src.new)) }
    ensures ended { IfOk result (λ outcome. outcome ≡ Outcome.End → HasEnded (S.left src.new)) }
    ensures tells { TellsReads S.Source src.old src.new (result ≡ Ok Outcome.ReadFault) }
{
    whole_is_true();
    laws::whole_is_true();
    first_line_is_first();
    kept.clear();
    'lines: loop {
        let progress = reader.advance(src);
        let Progress::Line = progress else {
            let outcome = outcome_at_stop(checker, progress);
            return Ok(outcome);
        };
        let bytes = reader.line();
        keep_line(kept, bytes)?;
        let said = checker.line(bytes)?;
        match said {
            Said::More => {}
            Said::Whole(verdict) => return Ok(Outcome::Yes(verdict)),
            Said::No { line, reason } => return Ok(Outcome::No { line, reason }),
        }
    }
}
