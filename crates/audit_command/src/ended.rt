// An audit, from its input to its line.
ghost use Rattle.std.specs.Prelude.{◌≡◌, ◌≤◌, ℕ, List, Some, Ok, IfOk};
ghost use Rattle.crew_io.specs.Draws.{TellsReads};
ghost use Rattle.crew_io.specs.Io.{HasEnded};
ghost use Rattle.crew_terms.specs.declared.TheConstants.{LONGEST_INPUT};
ghost use Rattle.crew_io.specs.Puts.{TellsWrites};
ghost use Rattle.audit_command.specs.Reads.{FoundHasLine, HasLine, IsBehindDay, IsFound};
ghost use Rattle.audit_command.specs.Says.{IsTold, ReadsAudit, end_of};

use crate::day_part::{DayPart, read_day_part};
use crate::event::Event;
use crate::laws::one_event;
use crate::rounds::{Dossiers, Found};
use crate::texts::put_event;
use cert_checker::Checker;
use crew_io::lines::LineReader;
use crew_io::sink::{Sink, WriteFault};
use crew_io::source::Source;
use crew_terms::LONGEST_INPUT;
use day_audit::Audit;
use day_commands::refused::DayFault;
use day_records::read_day;
use std::alloc::{AllocError, Global};

/// How an audit ended.
#[derive(Clone, Copy, Debug, PartialEq, Eq)]
pub enum Ended {
    /// The dossiers belong to the day.
    Done,
    /// They don't, or the input is no day with dossiers behind it.
    No,
    /// The day is refused.
    Refused,
    /// A read failed.
    ReadFault,
    /// A write failed.
    WriteFault,
}

/// The end of an audit that comes to the event.
fn end_of(event: &Event) -> Ended
    ensures { result ≡ end_of event.now }
{
    match *event {
        Event::Belong { .. } => Ended::Done,
        Event::Refused { .. } => Ended::Refused,
        _ => Ended::No,
    }
}

/// Goes through the records of a day's text and the dossiers behind it.
fn over_text<S: Source>(
    alloc: Global,
    reader: LineReader,
    src: &mut S,
    text: &[u8],
) -> Result<Found, AllocError>
    requires stopped { reader.stopped ≡ None }
    requires limit { reader.limit ≡ LONGEST_INPUT }
    requires handed { reader.handed ≤ LONGEST_INPUT }
    ensures found { IfOk result (λ found. (input : List ℕ)
        → IsBehindDay input text.now reader (S.left src.old)
        → IsFound input (S.left src.new) found) }
    ensures line { IfOk result FoundHasLine }
    ensures ended { (rounds : ℕ) → result ≡ Ok (Found.Event (Event.Belong rounds))
        → HasEnded (S.left src.new) }
    ensures tells { TellsReads S.Source src.old src.new (result ≡ Ok Found.ReadFault) }
{
    let day = read_day(alloc, text)?;
    let checker = Checker::open(alloc)?;
    let mut dossiers = Dossiers {
        reader,
        checker,
        audit: Audit::new(alloc),
        rounds: 0,
    };
    dossiers.day(src, &day)
}

/// What the input comes to.
fn find<S: Source>(alloc: Global, src: &mut S) -> Result<Found, AllocError>
    ensures found { IfOk result (λ found. (input : List ℕ) → S.left src.old ≡ Some input
        → IsFound input (S.left src.new) found) }
    ensures line { IfOk result FoundHasLine }
    ensures ended { (rounds : ℕ) → result ≡ Ok (Found.Event (Event.Belong rounds))
        → HasEnded (S.left src.new) }
    ensures tells { TellsReads S.Source src.old src.new (result ≡ Ok Found.ReadFault) }
{
    let mut reader = LineReader::open(alloc, LONGEST_INPUT)?;
    match read_day_part(alloc, &mut reader, src)? {
        DayPart::Text(text) => over_text(alloc, reader, src, text.as_slice()),
        DayPart::TooLong => Ok(Found::Event(Event::Refused {
            number: 0,
            cause: DayFault::TooLong,
        })),
        DayPart::NoDossiers(why) => Ok(Found::Event(Event::NoDossiers(why))),
        DayPart::ReadFault => Ok(Found::ReadFault),
    }
}

/// Writes the line of an event, and gives the end of the audit.
fn tell<K: Sink>(out: &mut K, event: Event) -> Ended
    requires { HasLine event }
    ensures told { IsTold (K.got out.old) (K.got out.new) event result }
    ensures writes { TellsWrites K.Sink out.old out.new (result ≡ Ended.WriteFault) }
{
    let end = end_of(&event);
    match put_event(out, event) {
        Ok(()) => end,
        Err(WriteFault) => Ended::WriteFault,
    }
}

/// Reads a day and the dossiers behind it, and writes the line of the event to which they come.
pub fn audit_day<S: Source, K: Sink>(
    alloc: Global,
    src: &mut S,
    out: &mut K,
) -> Result<Ended, AllocError>
    ensures { ReadsAudit S.Source K.Sink src.old src.new out.old out.new result }
{
    one_event();
    match find(alloc, src)? {
        Found::Event(event) => Ok(tell(out, event)),
        Found::ReadFault => Ok(Ended::ReadFault),
    }
}
