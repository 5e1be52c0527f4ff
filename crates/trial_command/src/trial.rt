// A trial: a generated day is planned, and the line of its dossier is written.
ghost use Rattle.std.specs.Prelude.{◌≡◌};
ghost use Rattle.cert_checker.specs.Checked.{verdict_of};
ghost use Rattle.crew_io.specs.Puts.{Puts};
ghost use Rattle.dossier_terms.specs.Dossier.{Dossier};
ghost use Rattle.trial_command.specs.Says.{RunsTrial, end_of};
ghost use Rattle.trial_command.specs.Trials.{IsTrial, trial_line};

use crate::plan::plan_trial;
use crate::words::Trial;
use cert_checker::Verdict;
use crew_io::sink::{Sink, WriteFault};
use line_out::{Part, put_line};
use std::alloc::{AllocError, Global};

/// How a trial ended for which memory lasted.
#[derive(Clone, Copy, Debug, PartialEq, Eq)]
pub enum TrialEnded {
    /// The plan of its dossier leaves as few tasks unassigned as any.
    Done,
    /// Its dossier does not show whether another plan leaves fewer.
    Unproved,
    /// A write failed.
    WriteFault,
}

/// Writes the line of a trial, whose dossier says this. A fault leaves a front of it.
fn put_trial<K: Sink>(out: &mut K, trial: Trial, verdict: Verdict) -> Result<(), WriteFault>
    ensures { (d : Dossier) → verdict ≡ verdict_of d
        → Puts K.Sink (trial_line trial d) out.old out.new result }
{
    let parts = [
        Part::Word(b"trial"),
        Part::Number(trial.number),
        Part::Number(trial.teams as u64),
        Part::Number(trial.tasks as u64),
        Part::Word(b"unassigned"),
        Part::Number(verdict.unassigned as u64),
        Part::Word(b"bound"),
        Part::Number(verdict.bound as u64),
        Part::Word(b"splits"),
        Part::Number(verdict.splits as u64),
        Part::Word(b"closed"),
        Part::Number(verdict.closed as u64),
        Part::Word(b"open"),
        Part::Number(verdict.left_open as u64),
        Part::Word(b"unshown"),
        Part::Number(verdict.unshown as u64),
        Part::Word(b"yes"),
    ];
    put_line(out, &parts)
}

/// The end of a trial whose line was written, or a front of it.
fn end_of(put: Result<(), WriteFault>, proved: bool) -> TrialEnded
    ensures { result ≡ end_of put proved }
{
    match put {
        Err(WriteFault) => TrialEnded::WriteFault,
        Ok(()) if proved => TrialEnded::Done,
        Ok(()) => TrialEnded::Unproved,
    }
}

/// Plans the generated day of a trial, and writes one line with what a checker says of its dossier: the numbers that it has.
/// The dossier is fed to the checker as it is written, and is not kept. A write fault leaves a front of the line.
/// AllocError for want of memory; then nothing is written.
pub fn write_trial<K: Sink>(
    alloc: Global,
    trial: Trial,
    out: &mut K,
) -> Result<TrialEnded, AllocError>
    requires { IsTrial trial }
    ensures { RunsTrial K.Sink trial out.old out.new result }
{
    let Ok(verdict) = plan_trial(alloc, trial) else {
        return Err(AllocError);
    };
    let put = put_trial(out, trial, verdict);
    Ok(end_of(put, verdict.bound == verdict.unassigned))
}
