// Records that are given to a desk, and what it says of them.
ghost use Rattle.std.specs.Prelude.{IfOk};
ghost use Rattle.day_terms.specs.Ranges.{IsInRange};

use day_records::read_day;
use day_terms::Entry;
use flight_changes::{ChangeFault, Desk};
use std::alloc::Global;
use std::test::Fail;

/// Two places ten minutes apart, a team, and the tasks A and B.
pub const SMALL_DAY: &[&[u8]] = &[
    b"place,BASE",
    b"place,G1",
    b"travel,BASE,G1,10",
    b"team,T1,BASE,06:00,14:00,",
    b"task,A,G1,07:00,07:00,30,1,",
    b"task,B,G1,07:00,07:00,30,1,",
];

/// The entry of a record.
pub fn entry_of(alloc: Global, record: &[u8]) -> Result<Entry, Fail>
    ensures { IfOk result IsInRange }
{
    let day = read_day(alloc, record)?;
    match day.entries.as_slice().first() {
        Some(entry) => Ok(*entry),
        None => Err("a record")?,
    }
}

/// What the desk says of a record.
pub fn answer(
    alloc: Global,
    desk: &mut Desk,
    record: &[u8],
) -> Result<Result<(), ChangeFault>, Fail> {
    let entry = entry_of(alloc, record)?;
    Ok(desk.apply(&entry))
}

/// Gives the desk records, all of which it takes.
pub fn give(alloc: Global, desk: &mut Desk, records: &[&[u8]]) -> Result<(), Fail> {
    for record in records {
        answer(alloc, desk, record)??;
    }
    Ok(())
}
