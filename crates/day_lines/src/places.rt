// Where the records of a text stand.
use crate::count::LineCount;
use csv::{ByteRecord, Reader, ReaderBuilder};
use std::alloc::{AllocError, Global};

/// Where a record stands in its text.
#[derive(Clone, Copy, Debug, PartialEq, Eq)]
pub struct Span {
    /// The place of its first byte, behind the end of the record before it, but for one byte of that end: so a byte order mark is
    /// one at the front of the text alone.
    pub from: usize,
    /// The place behind its last byte and its line end.
    pub until: usize,
    /// The line on which it begins, from 1.
    pub line: u64,
    /// The line on which it ends.
    pub last_line: u64,
}

impl Span {
    /// The bytes of the record, with line ends round them.
    pub fn bytes<'a>(&self, text: &'a [u8]) -> &'a [u8] {
        part_of(text, self.from, self.until)
    }
}

/// The bytes from one place to before another, none where there are no such places.
fn part_of(bytes: &[u8], from: usize, until: usize) -> &[u8] {
    match bytes.get(from..until) {
        Some(part) => part,
        None => &[],
    }
}

/// A reader of the records of a text, as a day's are read.
fn reader(alloc: Global, text: &[u8]) -> Reader<&[u8]> {
    ReaderBuilder::new()
        .has_headers(false)
        .flexible(true)
        .from_reader(alloc, text)
}

/// The first record of a text, with no field where it has none.
pub fn first_record(alloc: Global, text: &[u8]) -> Result<ByteRecord, AllocError> {
    let mut row = ByteRecord::new(alloc);
    match reader(alloc, text).read_byte_record(&mut row) {
        Ok(_) => Ok(row),
        Err(_) => Err(AllocError),
    }
}

/// The place at which the reader of a text stood before each of its records.
fn starts(alloc: Global, text: &[u8]) -> Result<Vec<usize>, AllocError> {
    let mut starts = Vec::new(alloc);
    for row in reader(alloc, text).into_byte_records() {
        let Ok(row) = row else {
            return Err(AllocError);
        };
        let start = row.position().map_or(0, |position| position.byte);
        starts.push(start as usize)?;
    }
    Ok(starts)
}

/// How many line ends stand at the front.
fn ends_in_front(bytes: &[u8]) -> usize {
    bytes
        .iter()
        .take_while(|b| **b == b'\r' || **b == b'\n')
        .count()
}

/// How many line ends stand at the back.
fn ends_at_back(bytes: &[u8]) -> usize {
    bytes
        .iter()
        .rev()
        .take_while(|b| **b == b'\r' || **b == b'\n')
        .count()
}

/// The first line and the last of the record in these bytes, which begin with any line ends that come before it.
fn lines_of(count: &mut LineCount, bytes: &[u8]) -> (u64, u64) {
    let front = ends_in_front(bytes);
    let inner = bytes.len().saturating_sub(ends_at_back(bytes));
    count.pass_all(part_of(bytes, 0, front));
    let line = count.line();
    count.pass_all(part_of(bytes, front, inner));
    let last_line = count.line();
    count.pass_all(part_of(bytes, inner, bytes.len()));
    (line, last_line)
}

/// The bytes behind a byte order mark.
fn behind_mark(bytes: &[u8]) -> &[u8] {
    match bytes.strip_prefix(b"\xEF\xBB\xBF") {
        Some(rest) => rest,
        None => bytes,
    }
}

/// The records of a text, in order. AllocError comes where memory is wanting.
pub fn spans(alloc: Global, text: &[u8]) -> Result<Vec<Span>, AllocError> {
    let starts = starts(alloc, text)?;
    let mut count = LineCount::new();
    let mut spans = Vec::new(alloc);
    for (n, start) in starts.iter().enumerate() {
        let until = starts.get(n.saturating_add(1)).copied();
        let until = until.unwrap_or(text.len());
        let bytes = behind_mark(part_of(text, *start, until));
        let (line, last_line) = lines_of(&mut count, bytes);
        spans.push(Span {
            from: start.saturating_sub(1),
            until,
            line,
            last_line,
        })?;
    }
    Ok(spans)
}
