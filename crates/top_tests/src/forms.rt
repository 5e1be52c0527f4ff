// Dossiers in form 2, with runs of potentials, frozen jobs and causes: good ones, and the first rule that others break.
use crate::answers::{YES, assert_told, check, status_of};
use crew_cli::run::Status;
use crew_fixtures::dossiers::{
    Lines, ONE_TASK, WITH_FROZEN, WITH_NO_CAUSE, WITH_RUNS, WITH_WINDOW,
};
use crew_fixtures::{joined, text_of, with_line};
use std::test::Fail;

const YES_FROZEN: &[u8] = b"yes unassigned 1 bound 1 splits 0 closed 1 open 0 unshown 0\n";

const YES_LOOSE: &[u8] = b"yes unassigned 1 bound 1 splits 1 closed 2 open 0 unshown 0\n";

const YES_NO_CAUSE: &[u8] = b"yes unassigned 1 bound 1 splits 1 closed 2 open 0 unshown 1\n";

/// A dossier, the number of a line of it, another line in its place, and what is written then.
type Case = (Lines, usize, &'static [u8], &'static [u8]);

const GOOD_ONES: &[Case] = &[
    (WITH_NO_CAUSE, 1, b"crew dossier 2", YES_NO_CAUSE),
    (WITH_FROZEN, 1, b"crew dossier 2", YES_FROZEN),
    (WITH_RUNS, 1, b"crew dossier 2", YES),
    (WITH_RUNS, 17, b"steps 0 420 0", YES),
    (WITH_RUNS, 17, b"steps 0 420 0 423 5", YES),
    (WITH_RUNS, 17, b"steps 0 420 0 421 1 422 0 423 1", YES),
];

/// The lines of one form where the other is told, and a third form.
const FORMS: &[Case] = &[
    (ONE_TASK, 1, b"crew dossier 3", b"no 1 Shape\n"),
    (ONE_TASK, 1, b"crew dossier 02", b"no 1 Shape\n"),
    (ONE_TASK, 1, b"crew dossier 2", b"no 9 Shape\n"),
    (ONE_TASK, 9, b"frozen 0", b"no 9 Shape\n"),
    (WITH_RUNS, 1, b"crew dossier 1", b"no 9 Shape\n"),
    (WITH_WINDOW, 16, b"why none", b"no 16 Shape\n"),
    (WITH_WINDOW, 19, b"steps 0 420 420000000", b"no 19 Shape\n"),
    (WITH_RUNS, 17, b"phi 0 5 4 4 0", b"no 17 Shape\n"),
];

const FROZEN: &[Case] = &[
    (WITH_FROZEN, 10, b"frozen", b"no 10 Shape\n"),
    (WITH_FROZEN, 10, b"frozen 1 1", b"no 10 Shape\n"),
    (WITH_FROZEN, 10, b"frozen 3", b"no 10 Number\n"),
    (WITH_FROZEN, 10, b"frozen 00", b"no 10 Number\n"),
    (WITH_FROZEN, 10, b"frozen 0", b"no 11 Shape\n"),
    (WITH_FROZEN, 10, b"frozen 2", b"no 12 Shape\n"),
    (WITH_FROZEN, 11, b"keep 0", b"no 11 Shape\n"),
    (WITH_FROZEN, 11, b"do 0 420 0", b"no 11 Shape\n"),
    (WITH_FROZEN, 11, b"keep 2 420 0", b"no 11 Number\n"),
    (WITH_FROZEN, 11, b"keep 0 2881 0", b"no 11 Number\n"),
    (WITH_FROZEN, 11, b"keep 0 420 1", b"no 11 Number\n"),
    (WITH_FROZEN, 11, b"keep 0 421 1", b"no 11 Number\n"),
    (WITH_FROZEN, 11, b"keep 0 421 0", b"no 11 Instance\n"),
    (WITH_FROZEN, 11, b"keep 0 419 0", b"no 11 Instance\n"),
    (WITH_FROZEN, 11, b"keep 0 420", b"no 11 Instance\n"),
    (WITH_FROZEN, 11, b"keep 0 420 0 0", b"no 11 Instance\n"),
    (WITH_FROZEN, 7, b"team T1 0 415 840", b"no 11 Instance\n"),
    (WITH_FROZEN, 10, b"frozen 2\nkeep 0 420 0", b"no 12 Shape\n"),
    (
        WITH_FROZEN,
        10,
        b"frozen 2\nkeep 1 421 0",
        b"no 11 Instance\n",
    ),
    (WITH_FROZEN, 11, b"keep 1 420 0", b"no 14 Plan Frozen 1\n"),
    (WITH_FROZEN, 14, b"do 1 420 0", b"no 14 Plan Frozen 0\n"),
    (WITH_FROZEN, 13, b"plan 2 1", b"no 13 Plan Frozen 0\n"),
    (WITH_FROZEN, 13, b"plan 3 1", b"no 13 Number\n"),
    (WITH_FROZEN, 18, b"extra 0 0", b"no 21 Bound\n"),
];

const LOOSE: &[Case] = &[
    (
        WITH_NO_CAUSE,
        17,
        b"why loose 1 1 2\nshare 0 1\nshare 1 1\nspare 0",
        YES_LOOSE,
    ),
    (
        WITH_NO_CAUSE,
        17,
        b"why loose 1 2 2\nshare 0 2\nshare 1 2\nspare 0",
        YES_LOOSE,
    ),
    // One team alone does half of what the task needs.
    (
        WITH_NO_CAUSE,
        17,
        b"why loose 1 1 1\nshare 1 1\nspare 0",
        b"no 19 Cause\n",
    ),
    (
        WITH_NO_CAUSE,
        17,
        b"why loose 1 1 2\nshare 0 1\nshare 1 1\nspare 1",
        b"no 20 Cause\n",
    ),
    // Columns rise.
    (
        WITH_NO_CAUSE,
        17,
        b"why loose 1 1 2\nshare 1 1\nshare 0 1",
        b"no 19 Cause\n",
    ),
    (
        WITH_NO_CAUSE,
        17,
        b"why loose 1 1 2\nshare 0 1\nshare 0 1",
        b"no 19 Cause\n",
    ),
    (
        WITH_NO_CAUSE,
        17,
        b"why loose 1 1 1\nshare 2 1",
        b"no 18 Number\n",
    ),
    (
        WITH_NO_CAUSE,
        17,
        b"why loose 1 1 1\nshare 0 2",
        b"no 18 Number\n",
    ),
    (
        WITH_NO_CAUSE,
        17,
        b"why loose 1 1 0\nspare 2",
        b"no 18 Number\n",
    ),
    (
        WITH_NO_CAUSE,
        17,
        b"why loose 1 1 0\nspare",
        b"no 18 Shape\n",
    ),
    (WITH_NO_CAUSE, 17, b"why loose 1 0 0", b"no 17 Number\n"),
    (WITH_NO_CAUSE, 17, b"why loose 2 1 0", b"no 17 Number\n"),
    (WITH_NO_CAUSE, 17, b"why loose 0 1 0", b"no 17 Number\n"),
    (WITH_NO_CAUSE, 17, b"why loose 1 1", b"no 17 Shape\n"),
];

const OTHER_CAUSES: &[Case] = &[
    (
        WITH_NO_CAUSE,
        17,
        b"why overflow 1 mul 2 3",
        b"no 17 Cause\n",
    ),
    (
        WITH_NO_CAUSE,
        17,
        b"why overflow 1 mul 170141183460469231731687303715884105727 2",
        YES_NO_CAUSE,
    ),
    (
        WITH_NO_CAUSE,
        17,
        b"why overflow 1 add 170141183460469231731687303715884105727 0",
        b"no 17 Cause\n",
    ),
    (
        WITH_NO_CAUSE,
        17,
        b"why overflow 1 sub -170141183460469231731687303715884105728 1",
        YES_NO_CAUSE,
    ),
    (
        WITH_NO_CAUSE,
        17,
        b"why overflow 1 add 170141183460469231731687303715884105728 1",
        b"no 17 Number\n",
    ),
    (
        WITH_NO_CAUSE,
        17,
        b"why overflow 1 div 2 3",
        b"no 17 Shape\n",
    ),
    (WITH_NO_CAUSE, 17, b"why spent 1", YES_NO_CAUSE),
    (WITH_NO_CAUSE, 17, b"why spent 2", b"no 17 Number\n"),
    (WITH_NO_CAUSE, 17, b"why spent", b"no 17 Shape\n"),
];

/// Two frozen jobs that one team can't do both.
const CLASH: &[u8] = b"frozen 2\nkeep 0 420 0\nkeep 1 420 0";

const CAUSES: &[Case] = &[
    (WITH_NO_CAUSE, 17, b"why", b"no 17 Shape\n"),
    (WITH_NO_CAUSE, 17, b"why nothing", b"no 17 Shape\n"),
    (WITH_NO_CAUSE, 17, b"why none 1", b"no 17 Shape\n"),
    (WITH_NO_CAUSE, 17, b"leaf closed", b"no 17 Shape\n"),
    (WITH_NO_CAUSE, 16, b"window 0 480", b"no 16 Cut\n"),
    (WITH_NO_CAUSE, 15, b"tree 1 2 0 0", b"no 16 Count\n"),
    (WITH_NO_CAUSE, 18, b"why none", b"no 18 Shape\n"),
];

const RUNS: &[Case] = &[
    (WITH_RUNS, 17, b"steps 0", b"no 17 Shape\n"),
    (WITH_RUNS, 17, b"steps 0 420", b"no 17 Shape\n"),
    (WITH_RUNS, 17, b"steps 0 420 5 421", b"no 17 Shape\n"),
    (WITH_RUNS, 17, b"steps 1 420 5", b"no 17 Shape\n"),
    (WITH_RUNS, 17, b"steps 00 420 5", b"no 17 Shape\n"),
    (WITH_RUNS, 17, b"steps 0 2881 5", b"no 17 Number\n"),
    (WITH_RUNS, 17, b"steps 0 0420 5", b"no 17 Number\n"),
    (WITH_RUNS, 17, b"steps 0 420 -0", b"no 17 Number\n"),
    (
        WITH_RUNS,
        17,
        b"steps 0 421 9223372036854775808",
        b"no 17 Number\n",
    ),
    (
        WITH_RUNS,
        17,
        b"steps 0 420 -9223372036854775809",
        b"no 17 Number\n",
    ),
    (WITH_RUNS, 17, b"steps 0 419 5", b"no 17 Steps\n"),
    (WITH_RUNS, 17, b"steps 0 421 6", b"no 17 Steps\n"),
    (WITH_RUNS, 17, b"steps 0 420 5 420 4", b"no 17 Steps\n"),
    (
        WITH_RUNS,
        17,
        b"steps 0 420 5 422 4 421 3",
        b"no 17 Steps\n",
    ),
    (WITH_RUNS, 17, b"steps 0 420 5 424 4", b"no 17 Steps\n"),
    (WITH_RUNS, 17, b"steps 0 420 5 421 5", b"no 17 Steps\n"),
    (
        WITH_NO_CAUSE,
        21,
        b"steps 0 421 420000000",
        b"no 21 Steps\n",
    ),
    (WITH_RUNS, 17, b"steps 0 420 -1", b"no 17 Potential 0 0\n"),
    (
        WITH_RUNS,
        17,
        b"steps 0 420 0 423 -1",
        b"no 17 Potential 0 0\n",
    ),
    (
        WITH_RUNS,
        17,
        b"steps 0 420 -9223372036854775808 421 6",
        b"no 17 Potential 0 0\n",
    ),
    (
        WITH_RUNS,
        17,
        b"steps 0 420 9223372036854775807",
        b"no 17 Worth 0\n",
    ),
    (WITH_RUNS, 17, b"steps 0 420 5 423 6", b"no 17 Worth 0\n"),
    (WITH_FROZEN, 13, b"plan 1 2", b"no 21 Bound\n"),
];

#[test]
fn frozen_jobs_causes_and_runs(rt: HostRuntime) -> Result<(), Fail> {
    for table in [GOOD_ONES, FORMS, FROZEN, CAUSES, LOOSE, OTHER_CAUSES, RUNS] {
        for (text, number, line, expected) in table {
            let input = with_line(rt.alloc(), text, *number, line)?;
            let told = check(rt.alloc(), input)?;
            assert_told(&rt, &told, status_of(expected), expected);
        }
    }
    Ok(())
}

#[test]
fn frozen_jobs_that_clash(rt: HostRuntime) -> Result<(), Fail> {
    let input = with_line(rt.alloc(), &WITH_FROZEN[..10], 10, CLASH)?;
    let told = check(rt.alloc(), input)?;
    assert_told(&rt, &told, Status::No, b"no 12 Instance\n");
    Ok(())
}

#[test]
fn dossiers_of_both_forms_in_turn(rt: HostRuntime) -> Result<(), Fail> {
    let mut input = Vec::new(rt.alloc());
    for dossier in [WITH_RUNS, ONE_TASK, WITH_FROZEN, WITH_NO_CAUSE] {
        input.extend_from_slice(&text_of(rt.alloc(), dossier)?)?;
    }
    let told = check(rt.alloc(), input)?;
    let lines = joined(rt.alloc(), &[YES, YES, YES_FROZEN, YES_NO_CAUSE])?;
    assert_told(&rt, &told, Status::Done, &lines);
    Ok(())
}
