// Days on which work has begun: jobs of a plan are frozen, and each later plan has them.
use crate::answers::{answer, assert_answer};
use crew_cli::run::Status;
use crew_fixtures::joined;
use std::alloc::Global;
use std::process::Abort;
use std::test::Fail;

/// A team, a task that it can begin at 07:00 alone, and a plan.
const PLANNED: &[u8] = b"place,BASE
place,G1
travel,BASE,G1,10
team,T1,BASE,06:00,14:00,
task,A,G1,07:00,07:00,30,1,
plan,1
";

/// The records after which A is frozen.
const BEGUN: &[u8] = b"now,07:10\n";

const HEAD: &[u8] = b"crew dossier 2
size 1 1 2 1
place BASE
place G1
travel 0 10
travel 10 0
team T1 0 360 840
task A 1 420 420 30 1
";

const TAIL: &[u8] = b"pool 0 0
plan 0 0
do 0 420 0
tree 0 0 1 0
leaf bare
end
";

/// What `crew check` says of a plan that leaves nothing unassigned.
const ALL_DONE: &[u8] = b"yes unassigned 0 bound 0 splits 0 closed 0 open 1 unshown 0\n";

/// The dossier of a plan that has A, which is frozen or not.
fn dossier(alloc: Global, frozen: &[u8]) -> Result<Vec<u8>, Fail> {
    Ok(joined(alloc, &[HEAD, frozen, TAIL])?)
}

#[test]
fn a_later_plan_has_what_has_begun(rt: HostRuntime) -> Result<(), Fail> {
    let alloc = rt.alloc();
    let day = joined(alloc, &[PLANNED, BEGUN, b"plan,1\n"])?;
    let free = dossier(alloc, b"frozen 0\n")?;
    let begun = dossier(alloc, b"frozen 1\nkeep 0 420 0\n")?;
    let both = joined(alloc, &[&free, &begun])?;
    assert_answer(&rt, alloc, "day", &day, Status::Done, &both)?;
    let yes = joined(alloc, &[ALL_DONE, ALL_DONE])?;
    assert_answer(&rt, alloc, "check", &both, Status::Done, &yes)
}

/// Asserts that behind one dossier these records are refused with this line.
fn assert_refused(rt: &impl Abort, alloc: Global, records: &[u8], line: &[u8]) -> Result<(), Fail> {
    let day = joined(alloc, &[PLANNED, records])?;
    let output = joined(alloc, &[&dossier(alloc, b"frozen 0\n")?, line])?;
    assert_answer(rt, alloc, "day", &day, Status::Refused, &output)
}

/// Asserts that behind one dossier these records are taken.
fn assert_taken(rt: &impl Abort, alloc: Global, records: &[u8]) -> Result<(), Fail> {
    let day = joined(alloc, &[PLANNED, records])?;
    let output = dossier(alloc, b"frozen 0\n")?;
    assert_answer(rt, alloc, "day", &day, Status::Done, &output)
}

#[test]
fn what_has_begun_forbids_changes(rt: HostRuntime) -> Result<(), Fail> {
    let alloc = rt.alloc();
    let line = b"refused 8 FrozenWork A\n";
    for change in [
        b"now,07:10\nsick,T1\n".as_slice(),
        b"now,07:10\ncancel,A\n",
        b"now,07:10\nmove,A,07:05,07:30\n",
        b"now,07:10\nneeds,A,2\n",
        b"now,07:10\nlonger,A,600\n",
        b"now,07:10\nshift,T1,07:00,14:00\n",
        b"now,07:10\ndefault_travel,70\nroute_time,BASE,G1,70\n",
    ] {
        let records = change.split(|b| *b == b'\n').count() as u64 - 1;
        let told: &[u8] = if records == 2 {
            line
        } else {
            b"refused 9 FrozenWork A\n"
        };
        assert_refused(&rt, alloc, change, told)?;
    }
    assert_taken(&rt, alloc, b"now,07:10\nmove,A,07:00,07:30\n")
}

/// The task that begins later is the first.
const LATER_FIRST: &[u8] = b"place,BASE
team,T,BASE,06:00,14:00,
task,A,BASE,08:00,08:00,10,1,
task,C,BASE,07:00,07:00,10,1,
plan,1
now,10:00
sick,T
";

#[test]
fn sick_names_the_first_task_by_number(rt: HostRuntime) -> Result<(), Fail> {
    let (status, output) = answer(rt.alloc(), "day", LATER_FIRST)?;
    assert_eq!(rt; status, Status::Refused);
    assert!(rt; output.ends_with(b"end\nrefused 7 FrozenWork A\n"));
    Ok(())
}

#[test]
fn nothing_is_frozen_that_begins_at_the_time(rt: HostRuntime) -> Result<(), Fail> {
    assert_taken(&rt, rt.alloc(), b"now,07:00\nsick,T1\n")?;
    assert_refused(
        &rt,
        rt.alloc(),
        b"now,07:01\nsick,T1\n",
        b"refused 8 FrozenWork A\n",
    )
}

#[test]
fn what_is_thawed_is_free(rt: HostRuntime) -> Result<(), Fail> {
    let alloc = rt.alloc();
    let day = joined(alloc, &[PLANNED, BEGUN, b"thaw,A\nsick,T1\nplan,1\n"])?;
    let (status, dossiers) = answer(alloc, "day", &day)?;
    assert_eq!(rt; status, Status::Done);
    let yes = b"yes unassigned 0 bound 0 splits 0 closed 0 open 1 unshown 0
yes unassigned 1 bound 1 splits 0 closed 1 open 0 unshown 0
";
    assert_answer(&rt, alloc, "check", &dossiers, Status::Done, yes)?;
    // A task that isn't frozen may be thawed, and one that is unknown may not.
    assert_taken(&rt, alloc, b"thaw,A\n")?;
    assert_refused(&rt, alloc, b"thaw,B\n", b"refused 7 NoTask\n")
}

/// Three tasks at different gates, of which the middle one makes the long way from the first to the last short.
const THREE_GATES: &[u8] = b"place,BASE
place,G1
place,G2
place,G3
default_travel,10
route_time,G1,G3,60
team,T1,BASE,06:00,14:00,
task,A,G1,07:00,07:00,10,1,
task,C,G3,07:40,07:40,10,1,
task,X,G2,07:20,07:20,10,1,
plan,0
now,08:00
";

/// Whether the text has the line.
fn has_line(text: &[u8], line: &[u8]) -> bool {
    text.split(|b| *b == b'\n').any(|l| l == line)
}

#[test]
fn a_job_that_others_need_stays_frozen(rt: HostRuntime) -> Result<(), Fail> {
    let alloc = rt.alloc();
    let day = joined(alloc, &[THREE_GATES, b"plan,0\n"])?;
    let (status, dossiers) = answer(alloc, "day", &day)?;
    assert_eq!(rt; status, Status::Done);
    assert!(rt; has_line(&dossiers, b"frozen 3"));
    let yes = joined(alloc, &[ALL_DONE, ALL_DONE])?;
    assert_answer(&rt, alloc, "check", &dossiers, Status::Done, &yes)?;
    let thawed = joined(alloc, &[THREE_GATES, b"thaw,X\n"])?;
    let (status, output) = answer(alloc, "day", &thawed)?;
    assert_eq!(rt; status, Status::Refused);
    assert!(rt; output.ends_with(b"end\nrefused 13 FrozenWork A\n"));
    Ok(())
}

#[test]
fn apply_plans_nothing_and_freezes_nothing(rt: HostRuntime) -> Result<(), Fail> {
    let alloc = rt.alloc();
    let day = joined(alloc, &[PLANNED, BEGUN, b"sick,T1\n"])?;
    let (status, _) = answer(alloc, "apply", &day)?;
    assert_eq!(rt; status, Status::Done);
    Ok(())
}
