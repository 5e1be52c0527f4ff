// Bundles of good dossiers: what they say, and what `parts-check` says of them.
use crate::asserts::{assert_text, assert_yes};
use crate::days::{
    BY_THE_GATE, FIRST_FROZEN, LATER, MORNING, NO_BOUND, NO_TASK, NOTHING_LATE, ONE_PART,
    SECOND_FROZEN, SLOW_ROAD, TWO_CROWDS, TWO_FROZEN, both, bundle,
};
use bundle_command::PiecesEnded;
use crew_fixtures::dossiers::{ONE_TASK, TWO_TASKS, WITH_POOL};
use crew_fixtures::text_of;
use std::test::Fail;

#[test]
fn the_rounds_of_a_day(rt: HostRuntime) -> Result<(), Fail> {
    let alloc = rt.alloc();
    // Two joint tasks part the day in three. In the second round the later one has moved to the time of another task.
    assert_yes(
        &rt,
        alloc,
        50,
        &both(alloc, MORNING, LATER)?,
        PiecesEnded::Proved,
        b"yes unassigned 0 bound 0 parts 3\nyes unassigned 1 bound 1 parts 3\n",
    )
}

#[test]
fn a_day_of_one_part(rt: HostRuntime) -> Result<(), Fail> {
    let alloc = rt.alloc();
    let day = text_of(alloc, NO_TASK)?;
    let text = bundle(alloc, NO_TASK, b"parts 1", &[NO_TASK])?;
    assert_text(&rt, alloc, 0, &day, PiecesEnded::Proved, &text)?;
    let day = text_of(alloc, ONE_TASK)?;
    let text = bundle(alloc, ONE_TASK, b"parts 1", &[ONE_PART])?;
    assert_text(&rt, alloc, 0, &day, PiecesEnded::Proved, &text)?;
    assert_yes(
        &rt,
        alloc,
        50,
        &text_of(alloc, TWO_TASKS)?,
        PiecesEnded::Proved,
        b"yes unassigned 0 bound 0 parts 1\n",
    )
}

#[test]
fn a_way_by_another_place(rt: HostRuntime) -> Result<(), Fail> {
    let alloc = rt.alloc();
    let day = text_of(alloc, SLOW_ROAD)?;
    let text = bundle(alloc, SLOW_ROAD, b"parts 1", &[BY_THE_GATE])?;
    assert_text(&rt, alloc, 0, &day, PiecesEnded::Proved, &text)?;
    assert_yes(
        &rt,
        alloc,
        0,
        &day,
        PiecesEnded::Proved,
        b"yes unassigned 0 bound 0 parts 1\n",
    )
}

#[test]
fn a_frozen_job_in_each_part(rt: HostRuntime) -> Result<(), Fail> {
    let alloc = rt.alloc();
    let day = text_of(alloc, TWO_FROZEN)?;
    let text = bundle(
        alloc,
        TWO_FROZEN,
        b"parts 3",
        &[FIRST_FROZEN, SECOND_FROZEN, NOTHING_LATE],
    )?;
    assert_text(&rt, alloc, 0, &day, PiecesEnded::Proved, &text)?;
    assert_yes(
        &rt,
        alloc,
        0,
        &day,
        PiecesEnded::Proved,
        b"yes unassigned 0 bound 0 parts 3\n",
    )
}

#[test]
fn bounds_of_parts_are_added(rt: HostRuntime) -> Result<(), Fail> {
    let alloc = rt.alloc();
    let day = text_of(alloc, TWO_CROWDS)?;
    assert_yes(
        &rt,
        alloc,
        50,
        &day,
        PiecesEnded::Proved,
        b"yes unassigned 2 bound 2 parts 3\n",
    )?;
    assert_yes(
        &rt,
        alloc,
        0,
        &day,
        PiecesEnded::Open,
        b"yes unassigned 2 bound 0 parts 3\n",
    )
}

#[test]
fn what_parts_prove_and_what_the_dossier_does(rt: HostRuntime) -> Result<(), Fail> {
    let alloc = rt.alloc();
    let shown = b"yes unassigned 1 bound 1 parts 1\n";
    let day = text_of(alloc, NO_BOUND)?;
    assert_yes(&rt, alloc, 50, &day, PiecesEnded::Proved, shown)?;
    // Without a step no part proves anything, and the bound is the dossier's own.
    let unshown = b"yes unassigned 1 bound 0 parts 1\n";
    assert_yes(&rt, alloc, 0, &day, PiecesEnded::Open, unshown)?;
    let day = text_of(alloc, WITH_POOL)?;
    assert_yes(&rt, alloc, 0, &day, PiecesEnded::Proved, shown)
}

#[test]
fn one_dossier_of_two_is_left_open(rt: HostRuntime) -> Result<(), Fail> {
    let alloc = rt.alloc();
    assert_yes(
        &rt,
        alloc,
        0,
        &both(alloc, NO_BOUND, WITH_POOL)?,
        PiecesEnded::Open,
        b"yes unassigned 1 bound 0 parts 1\nyes unassigned 1 bound 1 parts 1\n",
    )?;
    assert_yes(
        &rt,
        alloc,
        0,
        &both(alloc, WITH_POOL, NO_BOUND)?,
        PiecesEnded::Open,
        b"yes unassigned 1 bound 1 parts 1\nyes unassigned 1 bound 0 parts 1\n",
    )
}
