// One entry of a day: what it changes, and what is written of the round that it begins.
ghost use Rattle.std.specs.Prelude.{◌≡◌, ◌↔◌, [], true, Bool, ℕ, IfOk, IsTrue, None, Ok, OnErr};
ghost use Rattle.crew_io.specs.Io.{Appended, AppendedPart};
ghost use Rattle.crew_io.specs.Puts.{TellsWrites};
ghost use Rattle.dossier_terms.specs.Lines.{instance_text};
ghost use Rattle.day_terms.specs.Ranges.{IsInRange};
ghost use Rattle.replan.specs.Planning.{no_entry_yet};
ghost use Rattle.day_commands.specs.Taken.{IsTakenSo, is_whole_or_write_fault, of_desk, output_of, planning_of};

use crate::ended::DayOutput;
use crate::refused::DayFault;
use cert_write::write_instance;
use crew_instance::Instance;
use crew_io::sink::{Sink, WriteFault};
use crew_io::source::Failed;
use day_terms::Entry;
use flight_changes::{ChangeFault, Desk};
use replan::{Done, Session, SessionFault};
use std::alloc::{AllocError, Global};

/// What takes the entries of a day: its state alone, or its planning.
#[derive(Drop)]
pub(crate) enum Taker {
    Desk(Desk),
    Session(Session),
}

/// What an entry comes to.
#[derive(Clone, Copy)]
pub(crate) enum Taken {
    /// It is taken; if it begins a round, this was written, and `proved` tells whether the plan of its dossier leaves as few
    /// tasks unassigned as any.
    Whole { proved: bool },
    /// It is not taken.
    Refused(DayFault),
    /// It is taken, and a write failed.
    WriteFault,
}

/// Whether a change failed for want of memory.
fn wants_memory(fault: &ChangeFault) -> bool
    ensures { IsTrue result ↔ (fault.now ≡ ChangeFault.OutOfMemory) }
{
    matches!(fault, ChangeFault::OutOfMemory)
}

/// Writes the instance of a round.
fn put_round<K: Sink>(instance: &Instance, nodes: u32, out: &mut K) -> Taken
    ensures taken { result ≡ Taken.Whole true → Appended (K.got out.old) (K.got out.new)
        (instance_text instance.now nodes) }
    ensures part { result ≡ Taken.WriteFault → AppendedPart (K.got out.old) (K.got out.new)
        (instance_text instance.now nodes) }
    ensures others { IsTrue (is_whole_or_write_fault result) }
    ensures tells { TellsWrites K.Sink out.old out.new (result ≡ Taken.WriteFault) }
{
    match write_instance(out, instance, nodes) {
        Ok(()) => Taken::Whole { proved: true },
        Err(WriteFault) => Taken::WriteFault,
    }
}

/// Changes the state by an entry, and writes the instance of the round that it begins, if it begins one.
fn apply_entry<K: Sink>(desk: &mut Desk, entry: &Entry, out: &mut K) -> Result<Taken, AllocError>
    requires range { IsInRange entry.now }
    requires unknown { desk.old.plans ≡ [] }
    ensures taken { IfOk result (λ taken. IsTakenSo DayOutput.Instances
        (of_desk desk.old) entry.now taken (of_desk desk.new) (K.got out.old) (K.got out.new)) }
    ensures nothing { OnErr result (K.got out.new ≡ K.got out.old) }
    ensures tells { TellsWrites K.Sink out.old out.new (result ≡ Ok Taken.WriteFault) }
{
    if let Err(fault) = desk.apply(entry) {
        if wants_memory(&fault) {
            return Err(AllocError);
        }
        return Ok(Taken::Refused(DayFault::Change(fault)));
    }
    let Entry::Plan { nodes } = *entry else {
        return Ok(Taken::Whole { proved: true });
    };
    let Ok(instance) = desk.instance() else {
        return Err(AllocError);
    };
    Ok(put_round(&instance, nodes, out))
}

/// Takes an entry into the planning of the day, with a dossier of the round that it begins, if it begins one.
fn plan_entry<K: Sink>(
    session: &mut Session,
    entry: &Entry,
    out: &mut K,
) -> Result<Taken, AllocError>
    requires range { IsInRange entry.now }
    requires open_yet { session.old.failed ≡ None }
    requires unknown { session.old.day.plans ≡ [] }
    ensures taken { IfOk result (λ taken. IsTakenSo DayOutput.Dossiers session.old entry.now taken
        session.new (K.got out.old) (K.got out.new)) }
    ensures nothing { OnErr result (K.got out.new ≡ K.got out.old) }
    ensures tells { TellsWrites K.Sink out.old out.new (result ≡ Ok Taken.WriteFault) }
{
    match session.entry(entry, out) {
        Ok(Done::Changed) => Ok(Taken::Whole { proved: true }),
        Ok(Done::Round(counts)) => Ok(Taken::Whole {
            proved: counts.bound == counts.unassigned,
        }),
        Err(SessionFault::Change(fault)) => Ok(Taken::Refused(DayFault::Change(fault))),
        Err(SessionFault::WriteFault) => Ok(Taken::WriteFault),
        Err(SessionFault::OutOfMemory) => Err(AllocError),
    }
}

impl Taker {
    /// What takes the entries where this is written.
    pub(crate) fn new(alloc: Global, output: DayOutput) -> Taker
        ensures planning { planning_of result ≡ no_entry_yet }
        ensures output { output_of result ≡ output }
    {
        match output {
            DayOutput::Instances => Taker::Desk(Desk::new(alloc)),
            DayOutput::Dossiers => Taker::Session(Session::new(alloc)),
        }
    }

    /// Takes an entry, and writes what is asked for of the round that it begins, if it begins one.
    fn write<K: Sink>(&mut self, entry: &Entry, out: &mut K) -> Result<Taken, AllocError>
        requires range { IsInRange entry.now }
        requires open_yet { (planning_of self.old).failed ≡ None }
        requires unknown { (planning_of self.old).day.plans ≡ [] }
        ensures taken { IfOk result (λ taken. IsTakenSo (output_of self.old)
            (planning_of self.old) entry.now taken (planning_of self.new) (K.got out.old)
            (K.got out.new)) }
        ensures output { output_of self.new ≡ output_of self.old }
        ensures nothing { OnErr result (K.got out.new ≡ K.got out.old) }
        ensures tells { TellsWrites K.Sink out.old out.new (result ≡ Ok Taken.WriteFault) }
    {
        match self {
            Taker::Desk(desk) => apply_entry(desk, entry, out),
            Taker::Session(session) => plan_entry(session, entry, out),
        }
    }

    /// Takes an entry, writes what is asked for of the round that it begins, if it begins one, and passes it on, so that a round is
    /// where it goes as soon as it is done.
    pub(crate) fn take<K: Sink>(&mut self, entry: &Entry, out: &mut K) -> Result<Taken, AllocError>
        requires range { IsInRange entry.now }
        requires open_yet { (planning_of self.old).failed ≡ None }
        requires unknown { (planning_of self.old).day.plans ≡ [] }
        ensures taken { IfOk result (λ taken. IsTakenSo (output_of self.old)
            (planning_of self.old) entry.now taken (planning_of self.new) (K.got out.old)
            (K.got out.new)) }
        ensures passed { (nodes : ℕ) (proved : Bool) → entry.now ≡ Entry.Plan nodes
            → result ≡ Ok (Taken.Whole proved) → K.held out.new ≡ [] }
        ensures output { output_of self.new ≡ output_of self.old }
        ensures nothing { OnErr result (K.got out.new ≡ K.got out.old) }
        ensures tells { TellsWrites K.Sink out.old out.new (result ≡ Ok Taken.WriteFault) }
    {
        let taken = self.write(entry, out)?;
        let Taken::Whole { proved } = taken else {
            return Ok(taken);
        };
        let Entry::Plan { .. } = *entry else {
            return Ok(taken);
        };
        match out.flush() {
            Ok(()) => Ok(Taken::Whole { proved }),
            Err(Failed) => Ok(Taken::WriteFault),
        }
    }
}
