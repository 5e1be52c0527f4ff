// Mutated days.
use crate::edits::{draw, edited};
use crew_fixtures::Shown;
use crew_io::sink::MemSink;
use crew_io::source::MemSource;
use day_commands::{DayOutput, Ended, write_rounds};
use day_explain::{Ended as Told, explain};
use day_faults::faults_of;
use rand_pcg::Lcg64Xsh32;
use std::alloc::Global;
use std::test::Fail;

/// A day with a record of each kind, none of which is refused.
const DAY: &[u8] = b"place,BASE
place,A12
place,B07
travel,BASE,A12,10
route_time,A12,B07,7
default_travel,12
team,RAMP1,BASE,05:00,13:00,0 2
team,RAMP2,BASE,05:00,13:00,0 2
team,CLEAN1,BASE,06:00,14:00,1
task,LH123/unload,A12,06:10,06:20,35,2,0
task,LH123/clean,A12,06:30,06:50,20,1,1
task,BA845/unload,B07,08:00,08:15,40,2,0
plan,5
now,05:30
move,BA845/unload,08:45,09:00
longer,LH123/clean,25
needs,BA845/unload,1
skill,CLEAN1,0
unskill,CLEAN1,0
shift,RAMP1,05:00,12:00
thaw,LH123/unload
cancel,LH123/unload
sick,RAMP2
plan,5
";

/// So many days are drawn.
const DAYS: u64 = 4000;

/// More bytes than is written of any of them.
const ROOM: usize = 60_000;

/// The last line of a text that has a byte.
fn last_line(text: &[u8]) -> &[u8] {
    let mut last: &[u8] = &[];
    for line in text.split(|b| *b == b'\n') {
        if !line.is_empty() {
            last = line;
        }
    }
    last
}

/// The line of the record that `apply` refuses of a day, or none.
fn refused_by_apply(alloc: Global, text: &[u8]) -> Result<Option<Vec<u8>>, Fail> {
    let mut src = MemSource::new(text.to_vec(alloc)?, 4096, Vec::new(alloc));
    let mut out = MemSink::new(alloc, ROOM, 4096, Vec::new(alloc))?;
    match write_rounds(alloc, DayOutput::Instances, &mut src, &mut out)? {
        Ended::Refused => Ok(Some(last_line(out.got()).to_vec(alloc)?)),
        _ => Ok(None),
    }
}

/// Whether some record is refused, and nothing is told of the first of them.
fn hides_the_first(alloc: Global, text: &[u8]) -> Result<bool, Fail> {
    let faults = faults_of(alloc, text)?;
    Ok(match faults.records.first() {
        Some(record) => record.faults.is_empty(),
        None => false,
    })
}

/// Whether a fault is told of a day exactly where `apply` refuses a record of it, and the first is the one that it names.
fn agrees(alloc: Global, text: &[u8]) -> Result<bool, Fail> {
    let mut src = MemSource::new(text.to_vec(alloc)?, 4096, Vec::new(alloc));
    let mut out = MemSink::new(alloc, ROOM, 4096, Vec::new(alloc))?;
    let ended = explain(alloc, &mut src, &mut out)?;
    let last = last_line(out.got());
    Ok(match refused_by_apply(alloc, text)? {
        Some(line) => {
            ended == Told::Wrong
                && last.strip_prefix(b"apply would say: ") == Some(line.as_slice())
                && !hides_the_first(alloc, text)?
        }
        None => ended == Told::Fine && last == b"apply would refuse nothing".as_slice(),
    })
}

#[test]
fn the_day_itself(rt: HostRuntime) -> Result<(), Fail> {
    assert!(rt; agrees(rt.alloc(), DAY)?);
    assert!(rt; refused_by_apply(rt.alloc(), DAY)?.is_none());
    Ok(())
}

#[test]
fn mutated_days(rt: HostRuntime) -> Result<(), Fail> {
    let mut refused = 0u64;
    for seed in 0..DAYS {
        let mut words = Lcg64Xsh32::new(seed, 7);
        let mut text = DAY.to_vec(rt.alloc())?;
        for _ in 0..=draw(&mut words, 3) {
            text = edited(rt.alloc(), &mut words, &text)?;
        }
        assert!(rt; agrees(rt.alloc(), &text)?, "{:?}", Shown(&text));
        if refused_by_apply(rt.alloc(), &text)?.is_some() {
            refused = refused.saturating_add(1);
        }
    }
    // Most edits spoil the day, and some do not.
    assert!(rt; refused > DAYS / 2 && refused < DAYS);
    Ok(())
}
