// What is wrong with the form of a record.

use crate::faults::Fault;
use crew_terms::{LAST_MINUTE, Name, SKILLS};
use csv::ByteRecord;
use day_hints::{Holds, field_holds, form_of, kind_meant, kind_of};
use day_lines::Span;
use day_terms::{DayCause, RecordKind};
use field_table::{Cause, FieldFault, read_clock, read_number};
use std::alloc::{AllocError, Global};

/// The bytes that separate fields in other files.
const SEPARATORS: [u8; 3] = [b';', b'\t', b'|'];

/// The field with this number, empty where there is none.
pub fn field_at(row: &ByteRecord, place: usize) -> &[u8] {
    match row.get(place) {
        Some(word) => word,
        None => &[],
    }
}

/// Why a number is none of this range, if it is none.
fn range_cause(value: Option<i64>, low: u32, high: u32) -> Option<Cause> {
    match value {
        None => Some(Cause::Spelling),
        Some(n) if n < low as i64 || n > high as i64 => Some(Cause::Range),
        Some(_) => None,
    }
}

/// Why a word is no list of skills, if it is none.
fn skills_cause(word: &[u8]) -> Option<Cause> {
    if word.is_empty() {
        return None;
    }
    let mut worst = None;
    for part in word.split(|b| *b == b' ') {
        match range_cause(read_number(part), 0, SKILLS - 1) {
            Some(Cause::Range) => worst = Some(Cause::Range),
            Some(cause) => return Some(cause),
            None => {}
        }
    }
    worst
}

/// Why a word is not what a field has to hold, if it is not.
fn word_cause(holds: Holds, word: &[u8]) -> Option<Cause> {
    match holds {
        Holds::Name => match Name::read(word) {
            Some(_) => None,
            None => Some(Cause::Spelling),
        },
        Holds::Clock => range_cause(read_clock(word), 0, LAST_MINUTE),
        Holds::Number { low, high } => range_cause(read_number(word), low, high),
        Holds::Skills => skills_cause(word),
    }
}

/// How many fields records of the kind have.
fn field_count(kind: RecordKind) -> usize {
    form_of(kind).split(',').count()
}

/// The first of the bytes that separate fields in other files, where the first field begins as a kind's does up to it.
fn separator_in(first: &[u8]) -> Option<u8> {
    for separator in SEPARATORS {
        let front = first.split(|b| *b == separator).next().unwrap_or(&[]);
        if front.len() < first.len() && kind_meant(front).is_some() {
            return Some(separator);
        }
    }
    None
}

/// What is wrong with the first field of the record with this number.
fn kind_fault(first: &[u8], number: u64) -> Fault {
    if let Some(separator) = separator_in(first) {
        return Fault::Separator(separator);
    }
    match kind_meant(first) {
        Some(kind) => Fault::NearKind(kind),
        None if number == 1 => Fault::Heading,
        None => Fault::NoKind,
    }
}

/// Tells of the fields from this place on and before another one which hold not what they have to.
fn tell_words(
    told: &mut Vec<Fault>,
    row: &ByteRecord,
    kind: RecordKind,
    from: usize,
    until: usize,
) -> Result<(), AllocError> {
    for place in from..until {
        if let Some(cause) = word_cause(field_holds(kind, place), field_at(row, place)) {
            told.push(Fault::BadWord { place, cause })?;
        }
    }
    Ok(())
}

/// Tells what is wrong with the number of the fields of a record, and then with those that its kind has.
fn tell_count(told: &mut Vec<Fault>, row: &ByteRecord, kind: RecordKind) -> Result<(), AllocError> {
    let count = row.len();
    let due = field_count(kind);
    if count < due {
        told.push(Fault::TooFew { count, due })?;
        return Ok(());
    }
    let all_empty = (due..count).all(|place| field_at(row, place).is_empty());
    told.push(Fault::TooMany {
        more: count - due,
        all_empty,
    })?;
    if all_empty {
        tell_words(told, row, kind, 1, due)?;
    }
    Ok(())
}

/// Tells the first bad field of a record, and the others behind it.
fn tell_fields(
    told: &mut Vec<Fault>,
    row: &ByteRecord,
    kind: RecordKind,
    first: FieldFault,
) -> Result<(), AllocError> {
    let place = first.place;
    told.push(Fault::BadWord {
        place,
        cause: first.cause,
    })?;
    tell_words(told, row, kind, place.saturating_add(1), row.len())
}

/// The fault that a field of a record, with these bytes there, runs over the end of a line, if one does.
pub(crate) fn quote_fault(span: &Span, bytes: &[u8]) -> Option<Fault> {
    if span.line >= span.last_line {
        return None;
    }
    let quotes = bytes.iter().filter(|b| **b == b'"').count();
    Some(Fault::Quote {
        closed: quotes % 2 == 0,
    })
}

/// All that is wrong with the form of the record with this number, which is refused in itself for this cause; where a field runs over
/// the end of a line that alone.
pub(crate) fn form_faults(
    alloc: Global,
    row: &ByteRecord,
    quote: Option<Fault>,
    number: u64,
    cause: DayCause,
) -> Result<Vec<Fault>, AllocError> {
    let mut told = Vec::new(alloc);
    if let Some(fault) = quote {
        told.push(fault)?;
        return Ok(told);
    }
    let first = field_at(row, 0);
    match (cause, kind_of(first)) {
        (DayCause::Field(fault), Some(kind)) => match fault.cause {
            Cause::Count => tell_count(&mut told, row, kind)?,
            _ => tell_fields(&mut told, row, kind, fault)?,
        },
        _ => told.push(kind_fault(first, number))?,
    }
    Ok(told)
}
