// Days and their dossiers.
use crate::answers::{answer, assert_answer};
use crew_cli::run::Status;
use std::alloc::Global;
use std::process::Abort;
use std::test::Fail;

/// A team and a task that it can do.
pub const ONE_TASK: &[u8] = b"place,BASE
place,G1
travel,BASE,G1,10
team,T1,BASE,06:00,14:00,
task,A,G1,07:00,07:30,30,1,
plan,0
";

const ONE_TASK_DOSSIER: &[u8] = b"crew dossier 2
size 1 1 2 0
place BASE
place G1
travel 0 10
travel 10 0
team T1 0 360 840
task A 1 420 450 30 1
frozen 0
pool 0 0
plan 0 0
do 0 420 0
tree 0 0 1 0
leaf bare
end
";

const NO_TASK: &[u8] = b"place,BASE
team,T1,BASE,06:00,14:00,
plan,0
";

const NO_TASK_DOSSIER: &[u8] = b"crew dossier 2
size 1 0 1 0
place BASE
travel 0
team T1 0 360 840
frozen 0
pool 0 0
plan 0 0
tree 0 0 1 0
leaf bare
end
";

/// Two teams whose shifts hardly meet, and a task of both.
pub const JOINT_TASK: &[u8] = b"place,BASE
place,G1
travel,BASE,G1,10
team,T1,BASE,06:50,07:40,
team,T2,BASE,07:20,08:10,
task,J,G1,07:00,08:00,30,2,
plan,0
";

const JOINT_TASK_DOSSIER: &[u8] = b"crew dossier 2
size 2 1 2 0
place BASE
place G1
travel 0 10
travel 10 0
team T1 0 410 460
team T2 0 440 490
task J 1 420 480 30 2
frozen 0
pool 0 0
plan 1 0
tree 0 0 1 0
leaf open
price 0
worth 0
steps 0 420 0
worth 0
steps 0 450 0
end
";

/// What `crew check` says of a plan that leaves nothing unassigned.
const YES: &[u8] = b"yes unassigned 0 bound 0 splits 0 closed 0 open 1 unshown 0\n";

/// Asserts that `crew check` says this of what `crew day` writes of the day, which ends with this status.
fn assert_checked(
    rt: &impl Abort,
    alloc: Global,
    day: &[u8],
    status: Status,
    yes: &[u8],
) -> Result<(), Fail> {
    let (told, dossiers) = answer(alloc, "day", day)?;
    assert_eq!(rt; told, status);
    assert_answer(rt, alloc, "check", &dossiers, Status::Done, yes)
}

#[test]
fn a_task_that_is_done(rt: HostRuntime) -> Result<(), Fail> {
    assert_answer(
        &rt,
        rt.alloc(),
        "day",
        ONE_TASK,
        Status::Done,
        ONE_TASK_DOSSIER,
    )?;
    assert_checked(&rt, rt.alloc(), ONE_TASK, Status::Done, YES)
}

#[test]
fn a_day_without_tasks(rt: HostRuntime) -> Result<(), Fail> {
    assert_answer(
        &rt,
        rt.alloc(),
        "day",
        NO_TASK,
        Status::Done,
        NO_TASK_DOSSIER,
    )?;
    assert_checked(&rt, rt.alloc(), NO_TASK, Status::Done, YES)
}

#[test]
fn a_task_that_nobody_does(rt: HostRuntime) -> Result<(), Fail> {
    let alloc = rt.alloc();
    assert_answer(
        &rt,
        alloc,
        "day",
        JOINT_TASK,
        Status::Unproved,
        JOINT_TASK_DOSSIER,
    )?;
    let yes = b"yes unassigned 1 bound 0 splits 0 closed 0 open 1 unshown 0\n";
    assert_checked(&rt, alloc, JOINT_TASK, Status::Unproved, yes)
}

/// A day whose last record is refused, and the line that tells it.
type Case = (&'static [u8], &'static [u8]);

const REFUSED: [Case; 2] = [
    (
        b"place,BASE
place,G1
team,T1,BASE,06:00,14:00,
task,A,G1,07:00,07:30,30,1,
plan,1
",
        b"refused 5 MissingTravel BASE G1\n",
    ),
    (b"plan,100001\n", b"refused 1 Range 1\n"),
];

#[test]
fn a_record_that_is_refused(rt: HostRuntime) -> Result<(), Fail> {
    for (day, line) in REFUSED {
        assert_answer(&rt, rt.alloc(), "day", day, Status::Refused, line)?;
    }
    Ok(())
}

#[test]
fn rounds_before_a_record_that_is_refused(rt: HostRuntime) -> Result<(), Fail> {
    let alloc = rt.alloc();
    let mut day = ONE_TASK.to_vec(alloc)?;
    day.extend_from_slice(b"cancel,B\nplan,0\n")?;
    let mut told = ONE_TASK_DOSSIER.to_vec(alloc)?;
    told.extend_from_slice(b"refused 7 NoTask\n")?;
    assert_answer(&rt, alloc, "day", &day, Status::Refused, &told)
}

#[test]
fn an_empty_day_and_one_that_is_too_long(rt: HostRuntime) -> Result<(), Fail> {
    let alloc = rt.alloc();
    assert_answer(&rt, alloc, "day", b"", Status::Done, b"")?;
    let long = vec![in alloc; b'\n'; 8_388_609]?;
    assert_answer(
        &rt,
        alloc,
        "day",
        &long,
        Status::Refused,
        b"refused 0 TooLong\n",
    )
}
