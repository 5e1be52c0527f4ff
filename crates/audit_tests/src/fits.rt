// Dossiers that fit their rounds, and dossiers that differ in one thing.
use crate::asserts::same_at;
use crate::rounds::{Changes, Round, last_fit};
use crew_fixtures::dossiers::{Lines, ONE_TASK, WITH_POOL};
use day_audit::Fit;
use std::alloc::{Alloc, Global};
use std::process::Abort;
use std::test::Fail;

/// The day of a team with one task.
const ONE: Lines = &[
    b"place,BASE",
    b"place,G1",
    b"travel,BASE,G1,10",
    b"team,T1,BASE,06:00,14:00,",
    b"task,A,G1,07:00,07:30,30,1,",
];

/// The day of a team with two tasks at once.
const TWO: Lines = &[
    b"place,BASE",
    b"place,G1",
    b"default_travel,10",
    b"team,T1,BASE,06:00,14:00,",
    b"task,A,G1,07:00,07:00,30,1,",
    b"task,B,G1,07:00,07:00,30,1,",
];

/// The team with one task, which it has begun.
const BEGUN: Lines = &[
    b"crew dossier 2",
    b"size 1 1 2 1",
    b"place BASE",
    b"place G1",
    b"travel 0 10",
    b"travel 10 0",
    b"team T1 0 360 840",
    b"task A 1 420 450 30 1",
    b"frozen 1",
    b"keep 0 420 0",
    b"pool 0 0",
    b"plan 0 0",
    b"do 0 420 0",
    b"tree 0 0 1 0",
    b"leaf bare",
    b"end",
];

/// The second of the two tasks, after the first was cancelled: of the pool its route is kept, under another number.
const ONE_LEFT: Lines = &[
    b"crew dossier 1",
    b"size 1 1 2 1",
    b"place BASE",
    b"place G1",
    b"travel 0 10",
    b"travel 10 0",
    b"team T1 0 360 840",
    b"task B 1 420 420 30 1",
    b"pool 1 1",
    b"route 0 0 420",
    b"plan 0 0",
    b"do 0 420 0",
    b"tree 0 0 1 0",
    b"leaf bare",
    b"end",
];

/// The first round of the one task.
const ONE_ROUND: Round = Round {
    records: ONE,
    plan: b"plan,1",
    dossier: ONE_TASK,
    changes: &[],
};

/// The first round of the two tasks.
const TWO_ROUND: Round = Round {
    records: TWO,
    plan: b"plan,1",
    dossier: WITH_POOL,
    changes: &[],
};

/// A second round: its records, the lines of its dossier, what is changed of them, and how it fits.
type Second = (Lines, Lines, Changes, Fit);

/// Asserts how the dossier of the last round fits.
fn fits(rt: &(impl Abort + Alloc<A = Global>), rounds: &[Round], wanted: Fit) -> Result<(), Fail> {
    let fit = last_fit(rt.alloc(), rounds)?;
    let last = rounds.last().map(|round| (round.records, round.changes));
    same_at(rt, &fit, &wanted, &last);
    Ok(())
}

/// Asserts how the dossier of each of these second rounds fits.
fn fit_behind(
    rt: &(impl Abort + Alloc<A = Global>),
    first: Round,
    seconds: &[Second],
) -> Result<(), Fail> {
    for (records, dossier, changes, wanted) in seconds {
        let second = Round {
            records,
            plan: b"plan,1",
            dossier,
            changes,
        };
        fits(rt, &[first, second], *wanted)?;
    }
    Ok(())
}

/// Changes of the instance, each in one thing, and one that changes nothing.
const CHANGED: &[Second] = &[
    (
        &[b"place,G2", b"default_travel,10"],
        ONE_TASK,
        &[],
        Fit::Instance,
    ),
    (&[b"route_time,G1,BASE,11"], ONE_TASK, &[], Fit::Instance),
    (&[b"shift,T1,06:00,13:59"], ONE_TASK, &[], Fit::Instance),
    (&[b"skill,T1,1"], ONE_TASK, &[], Fit::Instance),
    (&[b"move,A,07:00,07:29"], ONE_TASK, &[], Fit::Instance),
    (&[b"longer,A,31"], ONE_TASK, &[], Fit::Instance),
    (&[b"cancel,A"], ONE_TASK, &[], Fit::Instance),
    (
        &[b"cancel,A", b"task,C,G1,07:00,07:30,30,1,"],
        ONE_TASK,
        &[],
        Fit::Instance,
    ),
    (&[b"travel,BASE,G1,10"], ONE_TASK, &[], Fit::Fits),
];

#[test]
fn compares_the_instance(rt: HostRuntime) -> Result<(), Fail> {
    fits(&rt, &[ONE_ROUND], Fit::Fits)?;
    fit_behind(&rt, ONE_ROUND, CHANGED)
}

/// Behind the first round the task has begun, as its plan says.
const FROZEN: &[Second] = &[
    (&[b"now,07:10"], BEGUN, &[], Fit::Fits),
    (&[b"now,07:10"], ONE_TASK, &[], Fit::Instance),
    (
        &[b"now,07:10"],
        BEGUN,
        &[(10, b"keep 0 430 0"), (13, b"do 0 430 0")],
        Fit::Instance,
    ),
    (&[b"now,07:00"], BEGUN, &[], Fit::Instance),
];

#[test]
fn compares_frozen_jobs(rt: HostRuntime) -> Result<(), Fail> {
    fit_behind(&rt, ONE_ROUND, FROZEN)
}

#[test]
fn compares_budgets(rt: HostRuntime) -> Result<(), Fail> {
    let more = Round {
        plan: b"plan,2",
        ..ONE_ROUND
    };
    fits(&rt, &[more], Fit::Nodes)?;
    let both = Round {
        changes: &[(2, b"size 1 1 2 2")],
        ..more
    };
    fits(&rt, &[both], Fit::Fits)
}

/// Which routes of the pool before are kept.
const KEPT: &[Second] = &[
    (&[], WITH_POOL, &[(10, b"pool 2 2")], Fit::Fits),
    (&[], WITH_POOL, &[], Fit::Kept),
    (&[], WITH_POOL, &[(10, b"pool 1 2")], Fit::Kept),
    (
        &[],
        WITH_POOL,
        &[
            (10, b"pool 2 2"),
            (11, b"route 0 1 420"),
            (12, b"route 0 0 420"),
        ],
        Fit::Kept,
    ),
    (&[b"cancel,A"], ONE_LEFT, &[], Fit::Fits),
    (&[b"cancel,A"], ONE_LEFT, &[(9, b"pool 0 1")], Fit::Kept),
    (&[b"cancel,A"], WITH_POOL, &[], Fit::Instance),
];

#[test]
fn compares_kept_routes(rt: HostRuntime) -> Result<(), Fail> {
    let kept_at_first = Round {
        changes: &[(10, b"pool 1 2")],
        ..TWO_ROUND
    };
    fits(&rt, &[kept_at_first], Fit::Kept)?;
    fit_behind(&rt, TWO_ROUND, KEPT)
}
