// The faults of a day, each with its line and with what is told of it.
ghost use Rattle.std.specs.Prelude.{◌≡◌, ◌++◌, ◌∷◌, [], All, IfOk, OnOk, map};
ghost use Rattle.crew_io.specs.Lines.{NoFeed};
ghost use Rattle.day_explain.specs.Telling.{IsOneLine, faults_placed, placed_at, placed_of, record_placed};

use crate::hints::Hint;
use csv::ByteRecord;
use day_faults::{Fault, FaultyRecord};
use day_lines::first_record;
use std::alloc::{AllocError, Global};

/// A fault, and the line of the text on which its record begins, from 1.
#[derive(Clone, Copy)]
pub struct Placed {
    pub line: u64,
    pub fault: Fault,
}

/// A fault with its line, and what is told of it in one line: what is wrong, and what to write.
#[derive(Drop)]
pub struct Told {
    pub placed: Placed,
    pub hint: Vec<u8>,
}

/// The bytes of a text but for its LFs.
fn one_line(alloc: Global, text: &str) -> Result<Vec<u8>, AllocError>
    ensures { IfOk result (λ line. NoFeed line.items) }
{
    let mut line = Vec::new(alloc);
    for byte in text.as_bytes() {
        if *byte != b'\n' {
            line.push(*byte)?;
        }
    }
    Ok(line)
}

/// What is told of a fault of a record, which has these fields.
fn hint_of(
    alloc: Global,
    faulty: &FaultyRecord,
    row: &ByteRecord,
    fault: Fault,
) -> Result<Vec<u8>, AllocError>
    ensures { IfOk result (λ hint. NoFeed hint.items) }
{
    let text = format!(in alloc; "{}", Hint { faulty, row, fault })?;
    one_line(alloc, text.as_str())
}

/// Adds a fault with its line, and what is told of it.
fn add(told: &mut Vec<Told>, placed: Placed, hint: Vec<u8>) -> Result<(), AllocError>
    requires { NoFeed hint.items }
    ensures placed { OnOk result (map placed_of told.new.items
        ≡ map placed_of told.old.items ++ placed ∷ []) }
    ensures lines { OnOk result (All IsOneLine told.old.items → All IsOneLine told.new.items) }
{
    told.push(Told { placed, hint })?;
    Ok(())
}

/// Tells these faults of a record, which has these fields.
fn tell_faults(
    told: &mut Vec<Told>,
    alloc: Global,
    row: &ByteRecord,
    faulty: &FaultyRecord,
    faults: &[Fault],
) -> Result<(), AllocError>
    ensures placed { OnOk result (map placed_of told.new.items
        ≡ map placed_of told.old.items ++ map (placed_at faulty.now.span.line) faults.now) }
    ensures lines { OnOk result (All IsOneLine told.old.items → All IsOneLine told.new.items) }
{
    for fault in faults {
        let hint = hint_of(alloc, faulty, row, *fault)?;
        let placed = Placed {
            line: faulty.span.line,
            fault: *fault,
        };
        add(told, placed, hint)?;
    }
    Ok(())
}

/// Tells each fault of a record, which has these fields.
fn tell_record(
    told: &mut Vec<Told>,
    alloc: Global,
    row: &ByteRecord,
    faulty: &FaultyRecord,
) -> Result<(), AllocError>
    ensures placed { OnOk result (map placed_of told.new.items
        ≡ map placed_of told.old.items ++ record_placed faulty.now) }
    ensures lines { OnOk result (All IsOneLine told.old.items → All IsOneLine told.new.items) }
{
    tell_faults(told, alloc, row, faulty, faulty.faults.as_slice())
}

/// Tells each fault of these records of a text, in order.
pub(crate) fn tell(
    alloc: Global,
    text: &[u8],
    records: &[FaultyRecord],
) -> Result<Vec<Told>, AllocError>
    ensures placed { IfOk result (λ told. map placed_of told.items ≡ faults_placed records.now) }
    ensures lines { IfOk result (λ told. All IsOneLine told.items) }
{
    let mut told = Vec::new(alloc);
    for faulty in records {
        let row = first_record(alloc, faulty.span.bytes(text))?;
        tell_record(&mut told, alloc, &row, faulty)?;
    }
    Ok(told)
}
