// Days whose rounds are searched, and what each round keeps of the one before.
use crate::answers::{answer, holds_at};
use crate::days::{JOINT_TASK, ONE_TASK};
use crew_cli::run::Status;
use crew_fixtures::{Shown, joined};
use std::alloc::Global;
use std::process::Abort;
use std::test::Fail;

/// Two places, ten minutes apart.
const GATE: &[u8] = b"place,BASE\nplace,G1\ntravel,BASE,G1,10\n";

/// A day that is searched: its records behind the places, the status, and lines of its dossiers.
struct Row {
    records: &'static [u8],
    status: Status,
    lines: &'static [&'static [u8]],
}

/// Whether the text has the line.
fn has_line(text: &[u8], line: &[u8]) -> bool {
    text.split(|b| *b == b'\n').any(|l| l == line)
}

/// Asserts that `crew check` and `crew rosters` take the dossiers to their end, and that each split shows why it was made.
fn assert_taken(rt: &impl Abort, alloc: Global, dossiers: &[u8]) -> Result<(), Fail> {
    let (checked, lines) = answer(alloc, "check", dossiers)?;
    assert_eq!(rt; checked, Status::Done);
    let shown = lines
        .split(|b| *b == b'\n')
        .all(|line| line.is_empty() || line.ends_with(b" unshown 0"));
    assert!(rt; shown, "{:?}", Shown(&lines));
    let (listed, _) = answer(alloc, "rosters", dossiers)?;
    assert_eq!(rt; listed, Status::Done);
    Ok(())
}

/// Asserts the status of the day and the lines of its dossiers, which `crew check` takes.
fn assert_row(rt: &impl Abort, alloc: Global, row: &Row) -> Result<(), Fail> {
    let day = joined(alloc, &[GATE, row.records])?;
    let (status, dossiers) = answer(alloc, "day", &day)?;
    assert_eq!(rt; status, row.status, "{:?}", Shown(row.records));
    for line in row.lines {
        holds_at(
            rt,
            has_line(&dossiers, line),
            &(Shown(&dossiers), Shown(line)),
        );
    }
    assert_taken(rt, alloc, &dossiers)
}

const ONE_DONE: Row = Row {
    records: b"team,T1,BASE,06:00,14:00,
task,A,G1,07:00,07:30,30,1,
plan,1
",
    status: Status::Done,
    lines: &[b"pool 0 0", b"plan 0 0", b"tree 0 0 1 0", b"leaf bare"],
};

const TWO_AT_ONCE: Row = Row {
    records: b"team,T1,BASE,06:00,14:00,
task,A,G1,07:00,07:00,30,1,
task,B,G1,07:00,07:00,30,1,
plan,1
",
    status: Status::Done,
    lines: &[b"plan 1 1", b"tree 0 1 0 0"],
};

const HARDLY_MEETING: Row = Row {
    records: b"team,T1,BASE,06:50,07:40,
team,T2,BASE,07:20,08:10,
task,J,G1,07:00,08:00,30,2,
plan,3
",
    status: Status::Done,
    lines: &[b"plan 1 1"],
};

const TOO_LONG: Row = Row {
    records: b"team,T1,BASE,06:50,07:40,
task,A,G1,07:00,08:00,31,1,
plan,1
",
    status: Status::Done,
    lines: &[b"plan 1 1", b"tree 0 1 0 0"],
};

const JUST_SHORT_ENOUGH: Row = Row {
    records: b"team,T1,BASE,06:50,07:40,
task,A,G1,07:00,08:00,30,1,
plan,1
",
    status: Status::Done,
    lines: &[b"plan 0 0", b"do 0 420 0", b"leaf bare"],
};

const TWELVE_TASKS: Row = Row {
    records: b"team,T1,BASE,06:00,14:00,
team,T2,BASE,06:00,14:00,
team,T3,BASE,06:00,14:00,
task,A,G1,07:00,07:00,30,1,
task,B,G1,07:00,07:00,30,1,
task,C,G1,07:00,07:00,30,1,
task,D,G1,07:00,07:00,30,1,
task,E,G1,08:00,08:00,30,1,
task,F,G1,08:00,08:00,30,1,
task,G,G1,08:00,08:00,30,1,
task,H,G1,08:00,08:00,30,1,
task,I,G1,09:00,09:00,30,1,
task,J,G1,09:00,09:00,30,1,
task,K,G1,09:00,09:00,30,1,
task,L,G1,09:00,09:00,30,1,
plan,1
",
    status: Status::Done,
    lines: &[b"plan 3 3", b"tree 0 1 0 0"],
};

/// Two teams that can hardly meet at a joint task, and a third one that is to do two tasks at once. One node does not settle it.
const HARDLY_MEETING_AND_TWO_AT_ONCE: Row = Row {
    records: b"team,T1,BASE,06:50,07:40,1
team,T2,BASE,07:20,08:10,1
team,T3,BASE,06:00,14:00,2
task,J,G1,07:00,08:00,30,2,1
task,A,G1,07:00,07:00,30,1,2
task,B,G1,07:00,07:00,30,1,2
plan,1
",
    status: Status::Done,
    lines: &[b"plan 2 2", b"tree 1 0 2 1", b"why loose 2 1 3"],
};

#[test]
fn teams_of_two_skills(rt: HostRuntime) -> Result<(), Fail> {
    assert_row(&rt, rt.alloc(), &HARDLY_MEETING_AND_TWO_AT_ONCE)
}

#[test]
fn a_task_that_the_first_plan_does(rt: HostRuntime) -> Result<(), Fail> {
    assert_row(&rt, rt.alloc(), &ONE_DONE)
}

#[test]
fn two_tasks_at_once(rt: HostRuntime) -> Result<(), Fail> {
    assert_row(&rt, rt.alloc(), &TWO_AT_ONCE)
}

#[test]
fn teams_that_hardly_meet(rt: HostRuntime) -> Result<(), Fail> {
    assert_row(&rt, rt.alloc(), &HARDLY_MEETING)
}

#[test]
fn a_task_that_is_too_long_for_the_shift(rt: HostRuntime) -> Result<(), Fail> {
    assert_row(&rt, rt.alloc(), &TOO_LONG)?;
    assert_row(&rt, rt.alloc(), &JUST_SHORT_ENOUGH)
}

#[test]
fn four_tasks_an_hour_for_three_teams(rt: HostRuntime) -> Result<(), Fail> {
    assert_row(&rt, rt.alloc(), &TWELVE_TASKS)
}

/// A team that the relaxed problem lets come back to a task, so that its two teams seem to be there.
const COMES_BACK: &[u8] = b"place,BASE
place,G1
travel,BASE,G1,10
team,T1,BASE,06:00,14:00,
task,A,G1,07:00,09:00,30,2,
task,B,G1,07:00,09:00,30,1,
plan,40
";

/// Whether a line with the first beginning stands right before one with the second.
fn stand_so(text: &[u8], first: &[u8], second: &[u8]) -> bool {
    let mut before = false;
    for line in text.split(|b| *b == b'\n') {
        if before && line.starts_with(second) {
            return true;
        }
        before = line.starts_with(first);
    }
    false
}

#[test]
fn a_route_that_comes_back(rt: HostRuntime) -> Result<(), Fail> {
    let alloc = rt.alloc();
    let (status, dossiers) = answer(alloc, "day", COMES_BACK)?;
    assert_eq!(rt; status, Status::Done);
    assert!(rt; has_line(&dossiers, b"plan 1 1"));
    assert!(rt; stand_so(&dossiers, b"tree ", b"window 0 "));
    assert!(rt; stand_so(&dossiers, b"window 0 ", b"why loose 1 "));
    assert_taken(&rt, alloc, &dossiers)
}

/// A day of two rounds; in the second the two joint tasks stand in each other's way.
const AIRPORT: &[u8] = b"place,BASE
place,A12
place,B07
default_travel,12
team,RAMP1,BASE,05:00,13:00,0 2
team,RAMP2,BASE,05:00,13:00,0 2
team,CLEAN1,BASE,06:00,14:00,1
task,LH123/unload,A12,06:10,06:20,35,2,0
task,LH123/clean,A12,06:30,06:50,20,1,1
task,BA845/unload,B07,08:00,08:15,40,2,0
task,BA845/clean,B07,08:20,08:50,25,1,1
plan,200
move,BA845/unload,06:30,06:45
plan,200
";

#[test]
fn a_flight_that_comes_earlier(rt: HostRuntime) -> Result<(), Fail> {
    let alloc = rt.alloc();
    let (status, dossiers) = answer(alloc, "day", AIRPORT)?;
    assert_eq!(rt; status, Status::Done);
    assert!(rt; has_line(&dossiers, b"plan 0 0") && has_line(&dossiers, b"leaf bare"));
    assert!(rt; has_line(&dossiers, b"plan 1 1") && has_line(&dossiers, b"tree 0 1 0 0"));
    assert_taken(&rt, alloc, &dossiers)
}

// ---- what a round keeps

/// The lines of the nth dossier of a text, from 0, that begin so.
pub fn lines_of<'a>(
    alloc: Global,
    text: &'a [u8],
    n: usize,
    head: &[u8],
) -> Result<Vec<&'a [u8]>, Fail> {
    let mut lines = Vec::new(alloc);
    let mut seen: usize = 0;
    for line in text.split(|b| *b == b'\n') {
        if line.starts_with(b"crew dossier") {
            seen = seen.saturating_add(1);
        }
        if seen == n.saturating_add(1) && line.starts_with(head) {
            lines.push(line)?;
        }
    }
    Ok(lines)
}

/// The lines of routes of the nth dossier of a text, from 0.
fn routes_of(alloc: Global, text: &[u8], n: usize) -> Result<Vec<&[u8]>, Fail> {
    lines_of(alloc, text, n, b"route ")
}

/// Whether the second dossier keeps all routes of the first, in order, as its `pool` line tells.
fn keeps_all(alloc: Global, text: &[u8], pool: &[u8]) -> Result<bool, Fail> {
    let first = routes_of(alloc, text, 0)?;
    let second = routes_of(alloc, text, 1)?;
    Ok(second.starts_with(&first) && has_line(text, pool))
}

#[test]
fn the_same_day_again(rt: HostRuntime) -> Result<(), Fail> {
    let alloc = rt.alloc();
    let again = joined(alloc, &[GATE, HARDLY_MEETING.records, b"plan,3\n"])?;
    let (status, dossiers) = answer(alloc, "day", &again)?;
    assert_eq!(rt; status, Status::Done);
    assert!(rt; routes_of(alloc, &dossiers, 0)?.len() >= 2);
    assert!(rt;
        keeps_all(alloc, &dossiers, b"pool 2 2")?,
        "{:?}",
        Shown(&dossiers)
    );
    assert_taken(&rt, alloc, &dossiers)
}

/// A day with CRLF and a quoted field. In its second round A is cancelled, and B may begin later.
pub const CANCELLED: &[u8] = b"place,BASE\r
place,G1\r
travel,BASE,G1,10\r
team,\"T1\",BASE,06:00,14:00,\r
task,A,G1,07:00,07:00,30,1,\r
task,B,G1,07:00,07:00,30,1,\r
plan,1\r
cancel,A\r
move,B,07:00,08:00\r
plan,1\r
cancel,A\r
";

/// The line of the record that the day with CRLF refuses.
const REFUSED: &[u8] = b"refused 11 NoTask\n";

#[test]
fn a_task_that_is_cancelled(rt: HostRuntime) -> Result<(), Fail> {
    let alloc = rt.alloc();
    let (status, mut dossiers) = answer(alloc, "day", CANCELLED)?;
    assert_eq!(rt; status, Status::Refused);
    assert!(rt; has_line(&dossiers, b"plan 1 1") && has_line(&dossiers, b"plan 0 0"));
    assert!(rt; dossiers.as_slice().ends_with(REFUSED));
    // The second round keeps the routes that visit B alone.
    let of_b = routes_of(alloc, &dossiers, 0)?
        .iter()
        .filter(|l| **l == b"route 0 1 420".as_slice())
        .count();
    assert!(rt;
        routes_of(alloc, &dossiers, 1)?.len() == of_b,
        "{:?}",
        Shown(&dossiers)
    );
    dossiers.truncate(dossiers.len().saturating_sub(REFUSED.len()));
    assert_taken(&rt, alloc, &dossiers)
}

/// Two equal plans: the second round keeps what the first had.
const TWICE: &[u8] = b"place,BASE
place,G1
travel,BASE,G1,10
team,T1,BASE,06:00,14:00,
task,A,G1,07:00,07:00,30,1,
task,B,G1,07:00,07:00,30,1,
plan,1
plan,1
";

#[test]
fn two_equal_plans(rt: HostRuntime) -> Result<(), Fail> {
    let alloc = rt.alloc();
    let (status, dossiers) = answer(alloc, "day", TWICE)?;
    assert_eq!(rt; status, Status::Done);
    assert!(rt;
        keeps_all(alloc, &dossiers, b"pool 0 0")?,
        "{:?}",
        Shown(&dossiers)
    );
    assert_taken(&rt, alloc, &dossiers)
}
