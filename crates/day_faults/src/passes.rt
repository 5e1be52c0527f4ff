// A pass over the records of a day.
ghost use Rattle.std.specs.Prelude.{◌≡◌, ◌++◌, ◌∷◌, [], IfOk, OnOk, All};
ghost use Rattle.day_terms.specs.Ranges.{IsInRange};
ghost use Rattle.day_terms.specs.Refusal.{refusal_of};
ghost use Rattle.day_terms.specs.State.{start};
ghost use Rattle.day_faults.specs.Stops.{passed, stop_for, stops_among};
ghost use Rattle.day_faults.specs.Days.{GoesOn, StopsFirst, TellsStops, TellsWith, first_stop, stop_in_itself, stops_of};

use crate::desks::hand;
use crate::faults::FaultyRecord;
use crate::forms::{field_at, form_faults, quote_fault};
use crate::refused::Memory;
use crate::sheets::Sheet;
use crate::stops::{Stop, StopCause};
use day_hints::kind_of;
use day_records::{Day, read_day};
use day_terms::{DayCause, Entry, Refused};
use flight_changes::Desk;
use std::alloc::{AllocError, Global};

/// What is wrong with a day.
#[derive(Drop)]
pub struct DayFaults {
    /// The records that are refused, in order.
    pub records: Vec<FaultyRecord>,
    /// Whether it has a record `plan`.
    pub has_plan: bool,
    /// The line of the first record behind a `now` that may be refused for the sake of frozen work. What is frozen hangs on the
    /// plans of the day, which it alone does not have.
    pub may_be_frozen: Option<u64>,
}

impl DayFaults {
    /// The first record that is refused, and why, if one is.
    pub fn first(&self) -> Option<Stop>
        ensures { result ≡ first_stop (stops_of self.now.records.items) }
    {
        match self.records.as_slice() {
            [] => None,
            [record, ..] => Some(record.stop),
        }
    }
}

/// What the records so far came to.
#[derive(Drop)]
struct Pass {
    desk: Desk,
    memory: Memory,
    records: Vec<FaultyRecord>,
}

/// Adds a faulty record.
fn add(records: &mut Vec<FaultyRecord>, faulty: FaultyRecord) -> Result<(), AllocError>
    ensures { OnOk result (stops_of records.new.items
        ≡ stops_of records.old.items ++ faulty.stop ∷ []) }
{
    records.push(faulty)?;
    Ok(())
}

impl Pass {
    /// Takes an entry, that of the record with this number, or leaves it out and tells what is wrong with it.
    fn take(&mut self, sheet: &Sheet<'_>, number: u64, entry: &Entry) -> Result<(), AllocError>
        requires { IsInRange entry.now }
        ensures passed { OnOk result (self.new.desk ≡ passed self.old.desk entry.now) }
        ensures told { OnOk result (stops_of self.new.records.items
            ≡ stops_of self.old.records.items ++ stop_for number (refusal_of self.old.desk entry.now)) }
        ensures more { OnOk result
            (GoesOn (stops_of self.old.records.items) (stops_of self.new.records.items)) }
    {
        let span = sheet.span(number);
        let told = hand(&mut self.desk, entry)?;
        let Some(fault) = told else {
            self.memory.take(entry, span.line)?;
            return Ok(());
        };
        let faults = self.memory.refuse(sheet.alloc, entry, &fault, span.line)?;
        let row = sheet.row(number)?;
        let kind = kind_of(field_at(&row, 0));
        let stop = Stop {
            number,
            cause: StopCause::Change(fault),
        };
        let faulty = FaultyRecord {
            stop,
            span,
            kind,
            faults,
            near: self.memory.near,
            other: self.memory.other,
        };
        add(&mut self.records, faulty)?;
        Ok(())
    }

    /// Leaves out the record with this number, which is refused in itself for this cause, and tells what is wrong with it.
    fn leave_out(
        &mut self,
        sheet: &Sheet<'_>,
        number: u64,
        cause: DayCause,
    ) -> Result<(), AllocError>
        ensures told { OnOk result (stops_of self.new.records.items ≡ stops_of self.old.records.items
            ++ record { number = number; cause = StopCause.InItself cause } ∷ []) }
        ensures more { OnOk result
            (GoesOn (stops_of self.old.records.items) (stops_of self.new.records.items)) }
    {
        let span = sheet.span(number);
        let row = sheet.row(number)?;
        self.memory.leave_out(&row, span.line)?;
        let quote = quote_fault(&span, sheet.bytes(number));
        let faults = form_faults(sheet.alloc, &row, quote, number, cause)?;
        let kind = kind_of(field_at(&row, 0));
        let stop = Stop {
            number,
            cause: StopCause::InItself(cause),
        };
        let faulty = FaultyRecord {
            stop,
            span,
            kind,
            faults,
            near: None,
            other: None,
        };
        add(&mut self.records, faulty)?;
        Ok(())
    }

    /// Takes the entries of the first records, or leaves them out.
    fn take_all(&mut self, sheet: &Sheet<'_>, entries: &[Entry]) -> Result<(), AllocError>
        requires range { All IsInRange entries.now }
        requires fresh { self.old.records.items ≡ [] }
        ensures { OnOk result (stops_of self.new.records.items
            ≡ stops_among self.old.desk 1 entries.now) }
    {
        for (n, entry) in entries.iter().enumerate() {
            self.take(sheet, n as u64 + 1, entry)?;
        }
        Ok(())
    }

    /// Takes the record with this number, behind one that is refused in itself, or leaves it out.
    fn read_one(&mut self, sheet: &Sheet<'_>, number: u64) -> Result<(), AllocError>
        ensures { OnOk result
            (GoesOn (stops_of self.old.records.items) (stops_of self.new.records.items)) }
    {
        let day = read_day(sheet.alloc, sheet.bytes(number))?;
        if let Some(bad) = day.stop {
            return self.leave_out(sheet, number, bad.cause);
        }
        let entries = day.entries.as_slice();
        if entries.is_empty() {
            return Ok(());
        }
        self.take(sheet, number, &entries[0])
    }

    /// Leaves out the first record that is refused in itself, and takes those behind it, or leaves them out.
    fn go_on(&mut self, sheet: &Sheet<'_>, bad: Refused) -> Result<(), AllocError>
        ensures { OnOk result (GoesOn (stops_of self.old.records.items
            ++ stop_in_itself bad ∷ [])
            (stops_of self.new.records.items)) }
    {
        self.leave_out(sheet, bad.number, bad.cause)?;
        for at in bad.number..sheet.count() {
            self.read_one(sheet, at.saturating_add(1))?;
        }
        Ok(())
    }

    /// Takes the records of the day, or leaves them out.
    fn take_day(&mut self, sheet: &Sheet<'_>, day: &Day) -> Result<(), AllocError>
        requires range { All IsInRange day.now.entries }
        requires fresh { self.old.records.items ≡ [] }
        ensures { OnOk result (TellsWith day.now.stop (stops_among self.old.desk 1 day.now.entries)
            (stops_of self.new.records.items)) }
    {
        let entries = day.entries.as_slice();
        self.take_all(sheet, entries)?;
        let Some(bad) = day.stop else {
            return Ok(());
        };
        self.go_on(sheet, bad)?;
        Ok(())
    }
}

/// What is wrong with a day's text: each record that is refused, where a refused one is left out as if it were not there.
/// AllocError comes where memory is wanting.
pub fn faults_of(alloc: Global, text: &[u8]) -> Result<DayFaults, AllocError>
    // The records before the first that is refused in itself are told exactly, and so is that one.
    ensures told { IfOk result (λ faults. TellsStops text.now (stops_of faults.records.items)) }
    // So none is told where the commands over a day refuse none, and else that one first.
    ensures first { IfOk result (λ faults.
        StopsFirst text.now (first_stop (stops_of faults.records.items))) }
{
    let day = read_day(alloc, text)?;
    let sheet = Sheet::new(alloc, text)?;
    let mut memory = Memory::new(alloc)?;
    let has_plan = sheet.look_ahead(&mut memory.names)?;
    let mut pass = Pass {
        desk: Desk::new(alloc),
        memory,
        records: Vec::new(alloc),
    };
    pass.take_day(&sheet, &day)?;
    Ok(DayFaults {
        may_be_frozen: pass.memory.may_be_frozen,
        records: pass.records,
        has_plan,
    })
}
