// The day of a trial, planned.
ghost use Rattle.std.specs.Prelude.{◌≡◌, [], ◌∷◌, None, Some, Ok, IfOk, OnOk, All};
ghost use Rattle.cert_checker.specs.Checked.{verdict_of};
ghost use Rattle.dossier_terms.specs.Dossier.{Dossier};
ghost use Rattle.day_terms.specs.Ranges.{IsInRange};
ghost use Rattle.day_terms.specs.Refusal.{AreTaken, refusal_of};
ghost use Rattle.day_terms.specs.Rounds.{rounds_of};
ghost use Rattle.day_terms.specs.State.{start};
ghost use Rattle.replan.specs.Planning.{IsEntered, no_entry_yet};
ghost use Rattle.replan.specs.Rounds.{AreRoundDossiers};
ghost use Rattle.trial_command.specs.Checking.{fresh_check};
ghost use Rattle.trial_command.specs.LastRound.{BeginsNoRound, EndsInRound};
ghost use Rattle.trial_command.specs.Taken.{HasTaken};
ghost use Rattle.trial_command.specs.Trials.{IsTrial, IsTrialDossier};

use crate::check_sink::CheckSink;
use crate::laws::generated_days_end_in_a_round;
use crate::words::Trial;
use cert_checker::Verdict;
use day_gen::{Entry, make};
use replan::{Done, Session, SessionFault};
use std::alloc::{AllocError, Global};

/// Takes an entry that the session does not refuse. AllocError for want of memory.
fn take_entry(
    session: &mut Session,
    entry: &Entry,
    sink: &mut CheckSink,
) -> Result<Done, AllocError>
    requires range { IsInRange entry.now }
    requires open_yet { session.old.failed ≡ None }
    requires taken { refusal_of session.old.day entry.now ≡ None }
    ensures entered { IfOk result (λ done. IsEntered session.old entry.now (Ok done) session.new
        (Some sink.old.got) (Some sink.new.got)) }
    ensures faults { OnOk result (sink.new.faults ≡ sink.old.faults) }
{
    match session.entry(entry, sink) {
        Ok(done) => Ok(done),
        Err(SessionFault::Change(_)) => unreachable!(),
        Err(SessionFault::WriteFault | SessionFault::OutOfMemory) => Err(AllocError),
    }
}

/// Takes entries that are not refused and begin no round; nothing is written. AllocError for want of memory.
fn take_entries(
    session: &mut Session,
    entries: &[Entry],
    sink: &mut CheckSink,
) -> Result<(), AllocError>
    requires range { All IsInRange entries.now }
    requires open_yet { session.old.failed ≡ None }
    requires taken { AreTaken session.old.day entries.now }
    requires no_round { All BeginsNoRound entries.now }
    ensures taken { OnOk result (HasTaken session.old entries.now session.new) }
    ensures sink { OnOk result (sink.new ≡ sink.old) }
{
    for entry in entries {
        let Done::Changed = take_entry(session, entry, sink)? else {
            unreachable!();
        };
    }
    Ok(())
}

/// Plans a day whose last entry begins its one round, and gives what the checker says of the dossier: its numbers.
/// AllocError for want of memory.
fn plan_entries(
    session: &mut Session,
    entries: &[Entry],
    sink: &mut CheckSink,
) -> Result<Verdict, AllocError>
    requires range { All IsInRange entries.now }
    requires none_yet { session.old ≡ no_entry_yet }
    requires unwritten { sink.old ≡ fresh_check }
    requires taken { AreTaken start entries.now }
    requires round { EndsInRound entries.now }
    ensures { IfOk result (λ verdict. (d : Dossier)
        × AreRoundDossiers [] (rounds_of [] entries.now) (d ∷ [])
        × (verdict ≡ verdict_of d)) }
{
    let Some((last, front)) = entries.split_last() else {
        unreachable!();
    };
    take_entries(session, front, sink)?;
    let Done::Round(_) = take_entry(session, last, sink)? else {
        unreachable!();
    };
    let Some(verdict) = sink.verdict() else {
        unreachable!();
    };
    Ok(verdict)
}

/// Plans the day of a trial, and gives what a checker says of its dossier, which it checks as it is written, and which is
/// not kept: the numbers of the dossier. AllocError for want of memory.
pub(crate) fn plan_trial(alloc: Global, trial: Trial) -> Result<Verdict, AllocError>
    requires { IsTrial trial }
    ensures { IfOk result (λ verdict. (d : Dossier) × IsTrialDossier trial d
        × (verdict ≡ verdict_of d)) }
{
    generated_days_end_in_a_round();
    let entries = make(alloc, trial.number, trial.teams, trial.tasks, trial.nodes)?;
    let mut sink = CheckSink::open(alloc)?;
    let mut session = Session::new(alloc);
    let planned = plan_entries(&mut session, &entries, &mut sink);
    // By name, so that its many parts are let go of in one call.
    drop(sink);
    planned
}
