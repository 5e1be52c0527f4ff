// The records of a day as they stand in its text.

use crate::faults::Thing;
use crate::forms::field_at;
use crate::names::Names;
use crew_terms::Name;
use csv::ByteRecord;
use day_hints::kind_of;
use day_lines::{Span, first_record, spans};
use day_terms::RecordKind;
use std::alloc::{AllocError, Global};

/// The text of a day, and where its records stand in it.
#[derive(Drop)]
pub(crate) struct Sheet<'a> {
    pub(crate) alloc: Global,
    text: &'a [u8],
    spans: Vec<Span>,
}

/// What kind of thing a record of the kind gives a name.
fn thing_named(kind: RecordKind) -> Option<Thing> {
    match kind {
        RecordKind::Place => Some(Thing::Place),
        RecordKind::Team => Some(Thing::Team),
        RecordKind::Task => Some(Thing::Task),
        _ => None,
    }
}

/// What a record gives a name, and which, if it gives one.
pub(crate) fn name_given(row: &ByteRecord) -> Option<(Thing, Name)> {
    let thing = thing_named(kind_of(field_at(row, 0))?)?;
    let name = Name::read(field_at(row, 1))?;
    Some((thing, name))
}

impl<'a> Sheet<'a> {
    /// The records of a text.
    pub(crate) fn new(alloc: Global, text: &'a [u8]) -> Result<Sheet<'a>, AllocError> {
        let spans = spans(alloc, text)?;
        Ok(Sheet { alloc, text, spans })
    }

    /// How many records there are.
    pub(crate) fn count(&self) -> u64 {
        self.spans.len() as u64
    }

    /// Where the record with this number, from 1, stands.
    pub(crate) fn span(&self, number: u64) -> Span {
        let at = number.saturating_sub(1) as usize;
        match self.spans.get(at) {
            Some(span) => *span,
            None => Span {
                from: 0,
                until: 0,
                line: 0,
                last_line: 0,
            },
        }
    }

    /// The bytes of the record with this number, with line ends round them.
    pub(crate) fn bytes(&self, number: u64) -> &'a [u8] {
        self.span(number).bytes(self.text)
    }

    /// The fields of the record with this number.
    pub(crate) fn row(&self, number: u64) -> Result<ByteRecord, AllocError> {
        first_record(self.alloc, self.bytes(number))
    }

    /// Remembers the names that come, each with the first line on which it does, and tells whether a record `plan` comes.
    pub(crate) fn look_ahead(&self, names: &mut Names) -> Result<bool, AllocError> {
        let mut has_plan = false;
        for span in &self.spans {
            let row = first_record(self.alloc, span.bytes(self.text))?;
            if let Some((thing, name)) = name_given(&row) {
                names.comes(thing, &name, span.line)?;
            }
            if kind_of(field_at(&row, 0)) == Some(RecordKind::Plan) {
                has_plan = true;
            }
        }
        Ok(has_plan)
    }
}
