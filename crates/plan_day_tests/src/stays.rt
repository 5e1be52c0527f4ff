// Days that are planned again: which jobs stay as they were.
use crate::answers::answer;
use crate::rounds::lines_of;
use crew_cli::run::Status;
use crew_fixtures::{Shown, joined};
use std::alloc::Global;
use std::process::Abort;
use std::test::Fail;

/// Two teams at a gate and four tasks, of which three begin at 07:00 alone, so that one of these is left open.
const FOUR_TASKS: &[u8] = b"place,BASE
place,G1
travel,BASE,G1,10
team,T1,BASE,06:00,14:00,1
team,T2,BASE,06:00,14:00,1 2
task,A,G1,07:00,07:00,30,1,1
task,B,G1,07:00,07:00,30,1,1
task,C,G1,07:00,07:00,30,1,1
task,D,G1,08:00,09:00,30,1,2
plan,1
";

/// The jobs of the first round: of the three tasks that begin at 07:00 the last one is left open.
const FIRST: [&[u8]; 3] = [b"do 0 420 0", b"do 1 420 1", b"do 3 480 1"];

/// Asserts that these are the lines.
fn assert_lines(
    rt: &impl Abort,
    alloc: Global,
    lines: &[&[u8]],
    wanted: &[&[u8]],
) -> Result<(), Fail> {
    let text = joined(alloc, lines)?;
    let wanted = joined(alloc, wanted)?;
    assert!(rt; text == wanted, "{:?}", Shown(&text));
    Ok(())
}

/// Asserts the jobs of the round behind these records, which come behind that of the day; `crew check` takes both rounds.
fn assert_jobs(rt: &impl Abort, alloc: Global, records: &[u8], jobs: &[&[u8]]) -> Result<(), Fail> {
    let day = joined(alloc, &[FOUR_TASKS, records, b"plan,1\n"])?;
    let (_, dossiers) = answer(alloc, "day", &day)?;
    let (status, _) = answer(alloc, "check", &dossiers)?;
    assert_eq!(rt; status, Status::Done, "{:?}", Shown(&dossiers));
    let first = lines_of(alloc, &dossiers, 0, b"do ")?;
    let second = lines_of(alloc, &dossiers, 1, b"do ")?;
    assert_lines(rt, alloc, &first, &FIRST)?;
    assert_lines(rt, alloc, &second, jobs)
}

#[test]
fn a_day_that_is_planned_again_unchanged(rt: HostRuntime) -> Result<(), Fail> {
    assert_jobs(&rt, rt.alloc(), b"", &FIRST)
}

/// C has to begin first now, and could be done in place of A or B.
#[test]
fn a_change_that_gains_no_task(rt: HostRuntime) -> Result<(), Fail> {
    assert_jobs(&rt, rt.alloc(), b"move,C,06:50,06:50\n", &FIRST)
}

/// T1 can do A no more, and T2 does B: the job of A is gone, and no other one comes in the way of those that are left.
#[test]
fn a_last_plan_that_is_not_legal_any_more(rt: HostRuntime) -> Result<(), Fail> {
    assert_jobs(&rt, rt.alloc(), b"unskill,T1,1\n", &FIRST[1..])
}
