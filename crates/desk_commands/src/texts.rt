// The texts that are written: what comes first, the part of each round, and what comes last.
ghost use Rattle.std.specs.Prelude.{◌≡◌, IfOk};
ghost use Rattle.crew_io.specs.Puts.{Puts};
ghost use Rattle.dossier_terms.specs.Dossier.{Dossier};
ghost use Rattle.cert_checker.specs.Checked.{IsWholeAt, verdict_of};
ghost use Rattle.dossier_commands.specs.Input.{IsYes};
ghost use Rattle.desk_commands.specs.Rounds.{changes_since, end_of, head_of, kept_of, round_text};

use crate::output::DeskOutput;
use cert_checker::{Checker, Verdict};
use crew_io::sink::{Sink, WriteFault};
use plan_changes::changes;
use plan_chart::{put_chart, put_page_end, put_page_head};
use round_changes::{Round, note_round};
use std::alloc::{AllocError, Global};

/// What is kept of the good dossier that the checker has, of which the verdict tells what it says.
pub fn note_dossier(alloc: Global, checker: &Checker, verdict: Verdict) -> Result<Round, AllocError>
    requires { IsYes verdict checker.now }
    ensures { IfOk result (λ now. (d : Dossier) → IsWholeAt checker.now.at d → now ≡ kept_of d) }
{
    let now = note_round(alloc, checker.instance(), checker.plan())?;
    Ok(now)
}

/// Writes what comes before the rounds. A fault leaves a front of it.
pub fn put_first<K: Sink>(out: &mut K, output: DeskOutput) -> Result<(), WriteFault>
    ensures { Puts K.Sink (head_of output) out.old out.new result }
{
    match output {
        DeskOutput::Changes => Ok(()),
        DeskOutput::Picture => put_page_head(out),
    }
}

/// Writes what comes after this many rounds. A fault leaves a front of it.
pub fn put_last<K: Sink>(out: &mut K, output: DeskOutput, rounds: u64) -> Result<(), WriteFault>
    ensures { Puts K.Sink (end_of output rounds) out.old out.new result }
{
    match output {
        DeskOutput::Changes => Ok(()),
        DeskOutput::Picture => put_page_end(out, rounds),
    }
}

/// Writes what changed since the round before, if there was one.
fn put_changes<K: Sink>(
    out: &mut K,
    round: u64,
    before: &Option<Round>,
    now: &Round,
) -> Result<(), WriteFault>
    ensures { Puts K.Sink (changes_since round before.now now.now)
        out.old out.new result }
{
    match before {
        Some(before) => changes(out, round, before, now),
        None => Ok(()),
    }
}

/// Writes the part of a round: of the dossier that the checker has, of which the verdict tells what it says, behind the round
/// before. A fault leaves a front of it.
pub fn put_round<K: Sink>(
    out: &mut K,
    output: DeskOutput,
    round: u64,
    before: &Option<Round>,
    now: &Round,
    checker: &Checker,
    verdict: Verdict,
) -> Result<(), WriteFault>
    requires yes { IsYes verdict checker.now }
    requires now { (d : Dossier) → IsWholeAt checker.now.at d → now.now ≡ kept_of d }
    ensures { (d : Dossier) → IsWholeAt checker.now.at d → verdict ≡ verdict_of d
        → Puts K.Sink (round_text output round before.now d)
        out.old out.new result }
{
    match output {
        DeskOutput::Changes => put_changes(out, round, before, now),
        DeskOutput::Picture => put_chart(
            out,
            round,
            verdict.bound,
            before,
            now,
            checker.instance(),
            checker.plan(),
        ),
    }
}
