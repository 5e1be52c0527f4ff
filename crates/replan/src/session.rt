// A session: a day's state under its entries, and a dossier for each round.
ghost use Rattle.std.specs.Prelude.{◌≡◌, None, Some, Err};
ghost use Rattle.crew_io.specs.Puts.{TellsWrites};
ghost use Rattle.day_terms.specs.Ranges.{IsInRange};
ghost use Rattle.replan.specs.Planning.{IsEntered, IsNewWriteFault, failure_of, fault_told, no_entry_yet, refusal_told};

use crate::counts::Counts;
use crate::faults::{Failure, SessionFault};
use crate::round::put_round;
use column_arena::Carry;
use crew_io::sink::Sink;
use flight_changes::{ChangeFault, Desk, Entry};
use std::alloc::Global;
use std::marker::Model;

/// What an entry came to that was taken.
#[derive(Clone, Copy, Debug, PartialEq, Eq)]
pub enum Done {
    /// It changed the state.
    Changed,
    /// It began a round, and a dossier was written, with these numbers.
    Round(Counts),
}

/// The planning of a day: each entry that is not refused changes its state, or begins a round, of which a dossier is
/// written.
///
/// In contracts: the day's state, the routes that the next round is handed, and the failure after which the session goes no
/// further, if there was one.
#[derive(Drop)]
pub struct Session {
    alloc: Global,
    desk: Desk,
    // The pool of the round before, by names.
    carry: Option<Carry>,
    failed: Option<Failure>,
}

impl Model for Session {
    ghost use Rattle.replan.specs.Planning.{Planning};

    ghost Value = { Planning };

    ghost use Rattle.replan.specs.Kept.{planning_of};

    ghost view = { planning_of };
}

/// The fault that is told of a failure.
fn fault_of(failure: Failure) -> SessionFault
    ensures { result ≡ fault_told failure }
{
    match failure {
        Failure::WriteFault => SessionFault::WriteFault,
        Failure::OutOfMemory => SessionFault::OutOfMemory,
    }
}

/// The fault of a change that the state refuses.
fn refusal(fault: ChangeFault) -> SessionFault
    ensures { result ≡ refusal_told fault }
{
    match fault {
        ChangeFault::OutOfMemory => SessionFault::OutOfMemory,
        fault => SessionFault::Change(fault),
    }
}

impl Session {
    /// The planning of a day before its first entry.
    pub fn new(alloc: Global) -> Session
        ensures { result ≡ no_entry_yet }
    {
        Session {
            alloc,
            desk: Desk::new(alloc),
            carry: None,
            failed: None,
        }
    }

    /// Takes an entry. One of a plan begins a round: the instance as it stands is searched, with as many steps as the entry says
    /// and from those routes of the round before that are routes still and from what is left of the last plan, and a dossier of
    /// what it comes to is written; its plan is then the day's last plan. Where what is left of the last plan is legal, the new
    /// one leaves no more tasks unassigned, and where it leaves as many it has each of those jobs. What the state refuses leaves all
    /// as before. Where a write fails or memory runs out the session ends: it answers the same to each later entry.
    pub fn entry<K: Sink>(&mut self, entry: &Entry, sink: &mut K) -> Result<Done, SessionFault>
        requires { IsInRange entry.now }
        ensures failed { (failure : Failure) → self.old.failed ≡ Some failure
            → (result ≡ Err (fault_told failure)) × (self.new ≡ self.old)
            × (K.got sink.new ≡ K.got sink.old) }
        ensures entered { self.old.failed ≡ None → IsEntered self.old entry.now result self.new
            (K.got sink.old) (K.got sink.new) }
        // A write fault comes only where the sink's count of faults rose, or after an earlier one.
        ensures tells { TellsWrites K.Sink sink.old sink.new (IsNewWriteFault self.old result) }
    {
        if let Some(failure) = self.failed {
            return Err(fault_of(failure));
        }
        let result = self.step(entry, sink);
        self.failed = failure_of(&result);
        result
    }

    /// Takes an entry, but for the failure that is kept.
    fn step<K: Sink>(&mut self, entry: &Entry, sink: &mut K) -> Result<Done, SessionFault>
        requires range { IsInRange entry.now }
        requires open_yet { self.old.failed ≡ None }
        ensures entered { IsEntered self.old entry.now result
            (record self.new { failed = failure_of result }) (K.got sink.old) (K.got sink.new) }
        ensures tells { TellsWrites K.Sink sink.old sink.new
            (result ≡ Err SessionFault.WriteFault) }
    {
        if let Err(fault) = self.desk.apply(entry) {
            return Err(refusal(fault));
        }
        let Entry::Plan { nodes } = *entry else {
            return Ok(Done::Changed);
        };
        let Ok(instance) = self.desk.instance() else {
            return Err(SessionFault::OutOfMemory);
        };
        let last = self.desk.last_plan()?;
        let planned = put_round(self.alloc, &instance, nodes, &self.carry, Some(&last), sink)?;
        self.desk.planned(planned.jobs);
        self.carry = Some(planned.carry);
        Ok(Done::Round(planned.counts))
    }
}

/// The failure that an answer tells.
fn failure_of(answer: &Result<Done, SessionFault>) -> Option<Failure>
    ensures { result ≡ failure_of answer.now }
{
    match answer {
        Err(SessionFault::WriteFault) => Some(Failure::WriteFault),
        Err(SessionFault::OutOfMemory) => Some(Failure::OutOfMemory),
        _ => None,
    }
}
