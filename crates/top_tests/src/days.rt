// What `crew apply` answers and writes.
use crate::answers::{apply, assert_told};
use crew_cli::run::Status;
use crew_fixtures::{joined, text_of};
use std::alloc::{AllocError, Global};
use std::test::Fail;

/// A day with two rounds and a quoted field, whose last record is refused.
pub const DAY: &[&[u8]] = &[
    b"place,BASE",
    b"place,G1",
    b"travel,BASE,G1,10",
    b"team,\"T1\",BASE,06:00,14:00,",
    b"task,A,G1,07:00,07:00,30,1,",
    b"task,B,G1,07:00,07:00,30,1,",
    b"plan,1",
    b"cancel,A",
    b"move,B,07:00,08:00",
    b"plan,1",
    b"cancel,A",
];

/// The instance of its first round.
const FIRST: &[&[u8]] = &[
    b"size 1 2 2 1",
    b"place BASE",
    b"place G1",
    b"travel 0 10",
    b"travel 10 0",
    b"team T1 0 360 840",
    b"task A 1 420 420 30 1",
    b"task B 1 420 420 30 1",
];

/// The instance of its second round.
const SECOND: &[&[u8]] = &[
    b"size 1 1 2 1",
    b"place BASE",
    b"place G1",
    b"travel 0 10",
    b"travel 10 0",
    b"team T1 0 360 840",
    b"task B 1 420 480 30 1",
];

/// A realistic day of two rounds, with a default travel time.
const AIRPORT: &[&[u8]] = &[
    b"place,BASE",
    b"place,A12",
    b"place,B07",
    b"default_travel,12",
    b"team,RAMP1,BASE,05:00,13:00,0 2",
    b"team,RAMP2,BASE,05:00,13:00,0 2",
    b"team,CLEAN1,BASE,06:00,14:00,1",
    b"task,LH123/unload,A12,06:10,06:20,35,2,0",
    b"task,LH123/clean,A12,06:30,06:50,20,1,1",
    b"task,BA845/unload,B07,08:00,08:15,40,2,0",
    b"task,BA845/clean,B07,08:20,08:50,25,1,1",
    b"plan,200",
    b"move,BA845/unload,06:30,06:45",
    b"plan,200",
];

/// The lines of its rounds before the task that is moved; one line comes after it.
const AIRPORT_FRONT: &[&[u8]] = &[
    b"size 3 4 3 200",
    b"place BASE",
    b"place A12",
    b"place B07",
    b"travel 0 12 12",
    b"travel 12 0 12",
    b"travel 12 12 0",
    b"team RAMP1 0 300 780 0 2",
    b"team RAMP2 0 300 780 0 2",
    b"team CLEAN1 0 360 840 1",
    b"task LH123/unload 1 370 380 35 2 0",
    b"task LH123/clean 1 390 410 20 1 1",
];

/// The text of these records, with CRLF line ends.
pub fn crlf_text(alloc: Global, records: &[&[u8]]) -> Result<Vec<u8>, AllocError> {
    let mut text = Vec::new(alloc);
    for record in records {
        text.extend_from_slice(record)?;
        text.extend_from_slice(b"\r\n")?;
    }
    Ok(text)
}

#[test]
fn each_round_and_the_refused_record(rt: HostRuntime) -> Result<(), Fail> {
    let alloc = rt.alloc();
    let first = text_of(alloc, FIRST)?;
    let second = text_of(alloc, SECOND)?;
    let told = apply(alloc, &crlf_text(alloc, DAY)?)?;
    let lines = joined(alloc, &[&first, &second, b"refused 11 NoTask\n"])?;
    assert_told(&rt, &told, Status::Refused, &lines);
    let told = apply(alloc, &crlf_text(alloc, &DAY[..7])?)?;
    assert_told(&rt, &told, Status::Done, &first);
    Ok(())
}

/// The instance of a round of the realistic day, with this line of the task that is moved.
fn airport_round(alloc: Global, moved: &[u8]) -> Result<Vec<u8>, AllocError> {
    let front = text_of(alloc, AIRPORT_FRONT)?;
    joined(
        alloc,
        &[&front, moved, b"task BA845/clean 2 500 530 25 1 1\n"],
    )
}

#[test]
fn a_realistic_day(rt: HostRuntime) -> Result<(), Fail> {
    let alloc = rt.alloc();
    let first = airport_round(alloc, b"task BA845/unload 2 480 495 40 2 0\n")?;
    let second = airport_round(alloc, b"task BA845/unload 2 390 405 40 2 0\n")?;
    let told = apply(alloc, &text_of(alloc, AIRPORT)?)?;
    assert_told(
        &rt,
        &told,
        Status::Done,
        &joined(alloc, &[&first, &second])?,
    );
    Ok(())
}

const PLACES: &[u8] = b"place,BASE\nplace,G1\nteam,T1,BASE,06:00,14:00,\n";

/// Records behind some places or none, and what is said of the first that is refused.
type Case = (&'static [u8], &'static [u8], &'static [u8]);

const REFUSED: [Case; 9] = [
    (b"", b"plaice,X\n", b"refused 1 Kind\n"),
    (b"", b"place\n", b"refused 1 Count\n"),
    (b"", b"place,X,Y\n", b"refused 1 Count\n"),
    (b"", b"place,\n", b"refused 1 Spelling 1\n"),
    (
        PLACES,
        b"task,A,G1,07:00,07:00,30,1,\nplan,1\n",
        b"refused 5 MissingTravel BASE G1\n",
    ),
    (
        PLACES,
        b"task,A,G1,07:60,08:00,30,1,\n",
        b"refused 4 Spelling 3\n",
    ),
    (
        PLACES,
        b"task,A,G1,07:30,07:00,30,1,\n",
        b"refused 4 BadWindow\n",
    ),
    (PLACES, b"plan,100001\n", b"refused 4 Range 1\n"),
    (PLACES, b"place,G1\nplaice,X\n", b"refused 4 SameName\n"),
];

#[test]
fn the_first_refusal_of_a_day(rt: HostRuntime) -> Result<(), Fail> {
    for (places, records, line) in REFUSED {
        let told = apply(rt.alloc(), &joined(rt.alloc(), &[places, records])?)?;
        assert_told(&rt, &told, Status::Refused, line);
    }
    Ok(())
}

#[test]
fn an_empty_day_and_one_that_is_too_long(rt: HostRuntime) -> Result<(), Fail> {
    let alloc = rt.alloc();
    let told = apply(alloc, b"")?;
    assert_told(&rt, &told, Status::Done, b"");
    let long = vec![in alloc; b'\n'; 8_388_609]?;
    let told = apply(alloc, &long)?;
    assert_told(&rt, &told, Status::Refused, b"refused 0 TooLong\n");
    Ok(())
}
