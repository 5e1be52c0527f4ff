// The records of a text, read in turn.
ghost use Rattle.std.specs.Prelude.{◌≡◌, ◌<◌, length, IfOk, All};
ghost use Rattle.day_terms.specs.Days.{ReadsRecord, IsDayOf};
ghost use Rattle.day_terms.specs.Ranges.{IsInRange};

use crate::kinds::{field_count, kind_of};
use crate::rows::read_row;
use crate::words::RecordWords;
use csv::ReaderBuilder;
use day_terms::{DayCause, Entry, Refused};
use field_table::{Cause, FieldFault, Words};
use std::alloc::{AllocError, Global};
use std::marker::Model;

/// Entries, in order.
#[derive(Drop)]
pub struct Entries {
    items: Vec<Entry>,
}

impl Model for Entries {
    ghost use Rattle.std.specs.Prelude.{List};
    ghost use Rattle.day_terms.specs.declared.Entry.{Entry};

    ghost Value = { List Entry };

    ghost use Rattle.day_records.specs.Kept.{entries_of};

    ghost view = { entries_of };
}

impl Entries {
    /// These entries; it takes no memory.
    pub fn new(items: Vec<Entry>) -> Entries
        ensures { result ≡ items.items }
    {
        Entries { items }
    }

    /// The entries, as a slice.
    pub fn as_slice(&self) -> &[Entry]
        ensures { result.now ≡ self.now }
    {
        &self.items
    }
}

/// What a day's text says: the entries of the records before the first bad one, and why that one is
/// refused, if there is one.
#[derive(Drop)]
pub struct Day {
    pub entries: Entries,
    pub stop: Option<Refused>,
}

/// What a record says in itself: an entry, or the first cause to refuse it.
fn read_record(words: &RecordWords<'_>) -> Result<Entry, DayCause>
    requires { 0 < length words.now }
    ensures { ReadsRecord words.now result }
{
    let Some(kind) = kind_of(words.word(0)) else {
        return Err(DayCause::Kind);
    };
    let count = words.count();
    if count != field_count(kind) {
        return Err(DayCause::Field(FieldFault {
            place: count,
            cause: Cause::Count,
        }));
    }
    match read_row(kind, words) {
        Ok(entry) => Ok(entry),
        Err(fault) => Err(DayCause::Field(fault)),
    }
}

/// Reads the text of a day: the entries of its records up to the first that is refused in itself, and
/// the number, from 1, and the cause of that one. The bytes may be any; a text that is not UTF-8 is read
/// like any other. AllocError comes where memory is wanting.
pub fn read_day(alloc: Global, text: &[u8]) -> Result<Day, AllocError>
    ensures says { IfOk result (λ day. IsDayOf text.now day.entries day.stop) }
    ensures in_range { IfOk result (λ day. All IsInRange day.entries) }
{
    let rdr = ReaderBuilder::new()
        .has_headers(false)
        .flexible(true)
        .from_reader(alloc, text);
    let mut entries = Vec::new(alloc);
    for row in rdr.into_byte_records() {
        let Ok(row) = row else {
            return Err(AllocError);
        };
        match read_record(&RecordWords::new(&row)) {
            Ok(entry) => entries.push(entry)?,
            Err(cause) => {
                let number = entries.len() as u64 + 1;
                return Ok(Day {
                    entries: Entries::new(entries),
                    stop: Some(Refused { number, cause }),
                });
            }
        }
    }
    Ok(Day {
        entries: Entries::new(entries),
        stop: None,
    })
}
