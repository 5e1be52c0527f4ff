// The records of a day and the dossiers of its rounds, gone through together.
ghost use Rattle.std.specs.Prelude.{◌≡◌, ◌≢◌, ◌<◌, ℕ, List, None, Some, Ok, IfOk, IfSome, IsSome, OnErr, OnOk, All, option_map};
ghost use Rattle.crew_io.specs.Draws.{TellsReads};
ghost use Rattle.crew_io.specs.Io.{HasEnded};
ghost use Rattle.crew_io.specs.Lines.{rest_of};
ghost use Rattle.day_terms.specs.Days.{IsDayOf};
ghost use Rattle.day_terms.specs.Ranges.{IsInRange};
ghost use Rattle.dossier_commands.specs.Input.{CanGoOn};
ghost use Rattle.day_audit.specs.Audited.{no_entry_yet};
ghost use Rattle.audit_command.specs.Events.{misfit};
ghost use Rattle.audit_command.specs.Reads.{EndsSo, FoundHasLine, IsAmid, IsBehindLine, IsFound, ReadsEntry, ReadsRound, found_at_end};

use crate::event::Event;
use cert_checker::Checker;
use crew_io::lines::{LineReader, Progress};
use crew_io::source::Source;
use day_audit::{Audit, Fit, Next};
use day_commands::laws::state_takes_entries;
use day_commands::refused::DayFault;
use day_records::Day;
use day_terms::{
    Entry, plans_to_come_decide_nothing, rounds_are_of_plans, rounds_go_on, state_goes_on,
};
use dossier_commands::input::{Outcome, next_dossier};
use dossier_terms::Reason;
use flight_changes::ChangeFault;
use std::alloc::AllocError;

/// What an input comes to.
#[derive(Clone, Copy, Debug, PartialEq, Eq)]
pub enum Found {
    Event(Event),
    /// A read failed.
    ReadFault,
}

/// What is found of a good dossier of this round; None exactly where it fits.
fn misfit(round: u64, fit: Fit) -> Option<Found>
    ensures { result ≡ option_map (λ event. Found.Event event) (misfit round fit) }
{
    match fit {
        Fit::Fits => None,
        Fit::Instance => Some(Found::Event(Event::Instance { round })),
        Fit::Nodes => Some(Found::Event(Event::Nodes { round })),
        Fit::Kept => Some(Found::Event(Event::Kept { round })),
    }
}

/// What is found of a dossier with a line that breaks a rule, or that does not come whole.
fn bad_dossier(round: u64, line: u64, reason: Reason) -> Found
    ensures { result ≡ Found.Event (Event.BadDossier round line reason) }
{
    Found::Event(Event::BadDossier {
        round,
        line,
        reason,
    })
}

/// What is found of a record that is refused.
fn refused(number: u64, cause: DayFault) -> Found
    ensures { result ≡ Found.Event (Event.Refused number cause) }
{
    Found::Event(Event::Refused { number, cause })
}

/// What is found where the record of this number meets the fault. AllocError exactly where the fault is want of memory, which
/// refuses no record.
fn found_at_fault(number: u64, fault: ChangeFault) -> Result<Found, AllocError>
    ensures memory { OnOk result (fault ≢ ChangeFault.OutOfMemory) }
    ensures found { IfOk result (λ found.
        found ≡ Found.Event (Event.Refused number (DayFault.Change fault))) }
    ensures err { OnErr result (fault ≡ ChangeFault.OutOfMemory) }
{
    match fault {
        ChangeFault::OutOfMemory => Err(AllocError),
        fault => Ok(refused(number, DayFault::Change(fault))),
    }
}

/// What is found at the end of the dossiers of all rounds, where the reader answers so.
fn found_at_end(rounds: u64, progress: Progress) -> Found
    ensures { result ≡ found_at_end rounds progress }
{
    match progress {
        Progress::End { partial } => {
            if partial == 0 {
                return Found::Event(Event::Belong { rounds });
            }
            Found::Event(Event::More { rounds })
        }
        Progress::ReadFault => Found::ReadFault,
        Progress::Line | Progress::TooLong | Progress::TooMuch => {
            Found::Event(Event::More { rounds })
        }
    }
}

/// What reads the dossiers behind a day, and compares them with its rounds.
#[derive(Drop)]
pub struct Dossiers {
    pub reader: LineReader,
    pub checker: Checker,
    pub audit: Audit,
    /// How many rounds have begun.
    pub rounds: u64,
}

impl Dossiers {
    /// Reads the dossier of the round that is due; None where it belongs to the round.
    fn round<S: Source>(&mut self, src: &mut S) -> Result<Option<Found>, AllocError>
        requires due { IsSome self.old.audit.due }
        requires going { CanGoOn self.old.reader self.old.checker }
        requires few { self.old.rounds < u64.MAX }
        ensures reads { IfOk result (λ found. ReadsRound self.old (S.left src.old) found self.new
            (S.left src.new)) }
        ensures amid { IfOk result (λ found. IfSome found IsAmid) }
        ensures tells { TellsReads S.Source src.old src.new (result ≡ Ok (Some Found.ReadFault)) }
    {
        self.rounds += 1;
        let round = self.rounds;
        let next = self.checker.lines() + 1;
        match next_dossier(&mut self.reader, &mut self.checker, src)? {
            Outcome::Yes(_) => {
                let fit = self.audit.dossier(&self.checker)?;
                Ok(misfit(round, fit))
            }
            Outcome::No { line, reason } => Ok(Some(bad_dossier(round, line, reason))),
            Outcome::End => Ok(Some(bad_dossier(round, next, Reason::End))),
            Outcome::ReadFault => Ok(Some(Found::ReadFault)),
        }
    }

    /// Takes the record of this number, and reads the dossier of the round that it begins, if it begins one; None where it is
    /// taken, and the dossier belongs to the round.
    fn entry<S: Source>(
        &mut self,
        src: &mut S,
        number: u64,
        entry: &Entry,
    ) -> Result<Option<Found>, AllocError>
        requires range { IsInRange entry.now }
        requires going { CanGoOn self.old.reader self.old.checker }
        requires few { self.old.rounds < number }
        ensures reads { IfOk result (λ found. ReadsEntry self.old (S.left src.old) number entry.now found
            self.new (S.left src.new)) }
        ensures amid { IfOk result (λ found. IfSome found IsAmid) }
        ensures tells { TellsReads S.Source src.old src.new (result ≡ Ok (Some Found.ReadFault)) }
    {
        match self.audit.entry(entry) {
            Ok(Next::Changed) => Ok(None),
            Ok(Next::Due) => self.round(src),
            Err(fault) => {
                let found = found_at_fault(number, fault)?;
                Ok(Some(found))
            }
        }
    }

    /// Looks for more bytes behind the dossiers.
    fn end<S: Source>(&mut self, src: &mut S) -> Found
        requires { self.old.reader.stopped ≡ None }
        ensures ends { (rest : List ℕ) → rest_of self.old.reader (S.left src.old) ≡ Some rest
            → EndsSo self.old.rounds rest (S.left src.new) result }
        ensures line { FoundHasLine result }
        ensures ended { (rounds : ℕ) → result ≡ Found.Event (Event.Belong rounds)
            → HasEnded (S.left src.new) }
        ensures tells { TellsReads S.Source src.old src.new (result ≡ Found.ReadFault) }
    {
        let progress = self.reader.advance(src);
        found_at_end(self.rounds, progress)
    }

    /// Goes through the records of a day and the dossiers of its rounds, and gives the first event.
    pub fn day<S: Source>(&mut self, src: &mut S, day: &Day) -> Result<Found, AllocError>
        requires range { All IsInRange day.now.entries }
        requires audit { self.old.audit ≡ no_entry_yet }
        requires rounds { self.old.rounds ≡ 0 }
        requires going { CanGoOn self.old.reader self.old.checker }
        ensures found { IfOk result (λ found. (input text : List ℕ)
            → IsDayOf text day.now.entries day.now.stop
            → IsBehindLine input text self.old.reader (S.left src.old) self.old.checker
            → IsFound input (S.left src.new) found) }
        ensures line { IfOk result FoundHasLine }
        ensures ended { (rounds : ℕ) → result ≡ Ok (Found.Event (Event.Belong rounds))
            → HasEnded (S.left src.new) }
        ensures tells { TellsReads S.Source src.old src.new (result ≡ Ok Found.ReadFault) }
    {
        plans_to_come_decide_nothing();
        rounds_go_on();
        state_goes_on();
        rounds_are_of_plans();
        state_takes_entries();
        let entries = day.entries.as_slice();
        for (n, entry) in entries.iter().enumerate() {
            if let Some(found) = self.entry(src, n as u64 + 1, entry)? {
                return Ok(found);
            }
        }
        match day.stop {
            Some(stop) => Ok(refused(stop.number, DayFault::InItself(stop.cause))),
            None => Ok(self.end(src)),
        }
    }
}
