// Which routes of the pool before a dossier keeps.
use crate::answers::{assert_audit, planned};
use crate::days::{Changes, text_with};
use crew_fixtures::dossiers::{Lines, WITH_POOL};
use std::alloc::Global;
use std::process::Abort;
use std::test::Fail;

/// Two tasks of one team at once, planned twice.
const SAME_TASKS: &[u8] = b"place,BASE
place,G1
travel,BASE,G1,10
team,T1,BASE,06:00,14:00,
task,A,G1,07:00,07:00,30,1,
task,B,G1,07:00,07:00,30,1,
plan,1
plan,1
";

/// The same, but that in the second round A is cancelled, and B may begin later.
const ONE_CANCELLED: &[u8] = b"place,BASE
place,G1
travel,BASE,G1,10
team,T1,BASE,06:00,14:00,
task,A,G1,07:00,07:00,30,1,
task,B,G1,07:00,07:00,30,1,
plan,1
cancel,A
move,B,07:00,08:00
plan,1
";

/// A dossier of the second round then: of the pool of two routes, that of B is kept, under the number that B has now.
const ONE_LEFT: Lines = &[
    b"crew dossier 1",
    b"size 1 1 2 1",
    b"place BASE",
    b"place G1",
    b"travel 0 10",
    b"travel 10 0",
    b"team T1 0 360 840",
    b"task B 1 420 480 30 1",
    b"pool 1 1",
    b"route 0 0 420",
    b"plan 0 0",
    b"do 0 420 0",
    b"tree 0 0 1 0",
    b"leaf bare",
    b"end",
];

/// What an audit writes where the routes that the second dossier keeps are not those of the first that still are routes.
const KEPT: &[u8] = b"audit no 2 Kept\n";

/// Asserts what is written of two dossiers for the day, the first with a pool of two routes.
fn assert_second(
    rt: &impl Abort,
    alloc: Global,
    day: &[u8],
    second: &[u8],
    line: &[u8],
) -> Result<(), Fail> {
    let mut dossiers = text_with(alloc, WITH_POOL, &[])?;
    dossiers.extend_from_slice(second)?;
    assert_audit(rt, alloc, day, &dossiers, line)
}

/// What is changed of the second dossier, and what an audit writes.
type Second = (Changes, &'static [u8]);

/// Both routes are kept; then one is no more than a new one, both are new, and two are exchanged.
const OF_SAME_TASKS: [Second; 4] = [
    (&[(10, b"pool 2 2")], b"audit 2 yes\n"),
    (&[(10, b"pool 1 2")], KEPT),
    (&[], KEPT),
    (
        &[
            (10, b"pool 2 2"),
            (11, b"route 0 1 420"),
            (12, b"route 0 0 420"),
        ],
        KEPT,
    ),
];

#[test]
fn kept_routes_are_those_of_the_pool(rt: HostRuntime) -> Result<(), Fail> {
    for (changes, line) in OF_SAME_TASKS {
        let second = text_with(rt.alloc(), WITH_POOL, changes)?;
        assert_second(&rt, rt.alloc(), SAME_TASKS, &second, line)?;
    }
    Ok(())
}

/// The one route is kept; then it is no more than a new one, another one is kept behind it, and another one in its place.
const OF_ONE_LEFT: [Second; 4] = [
    (&[], b"audit 2 yes\n"),
    (&[(9, b"pool 0 1")], KEPT),
    (
        &[(9, b"pool 2 2"), (10, b"route 0 0 420\nroute 0 0 430")],
        KEPT,
    ),
    (&[(10, b"route 0 0 430")], KEPT),
];

#[test]
fn routes_are_kept_by_names(rt: HostRuntime) -> Result<(), Fail> {
    for (changes, line) in OF_ONE_LEFT {
        let second = text_with(rt.alloc(), ONE_LEFT, changes)?;
        assert_second(&rt, rt.alloc(), ONE_CANCELLED, &second, line)?;
    }
    Ok(())
}

/// The second round as a day of its own.
const B_ALONE: &[u8] = b"place,BASE
place,G1
travel,BASE,G1,10
team,T1,BASE,06:00,14:00,
task,B,G1,07:00,08:00,30,1,
plan,1
";

#[test]
fn what_is_planned_anew_keeps_none(rt: HostRuntime) -> Result<(), Fail> {
    let second = planned(rt.alloc(), B_ALONE)?;
    assert_second(&rt, rt.alloc(), ONE_CANCELLED, &second, KEPT)
}

#[test]
fn the_first_round_keeps_none(rt: HostRuntime) -> Result<(), Fail> {
    let alloc = rt.alloc();
    let mut dossiers = text_with(alloc, WITH_POOL, &[(10, b"pool 1 2")])?;
    dossiers.extend_from_slice(&text_with(alloc, WITH_POOL, &[(10, b"pool 2 2")])?)?;
    assert_audit(&rt, alloc, SAME_TASKS, &dossiers, b"audit no 1 Kept\n")
}
