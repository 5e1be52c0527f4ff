// Good bundles.
use crate::asserts::{answer, assert_that, assert_told};
use crate::bundles::{FIRST_ALONE, NO_BOUND, NO_TASK, PART_A, PART_B, bundle};
use crew_fixtures::dossiers::{TWO_TASKS, WITH_FROZEN, WITH_POOL};
use crew_fixtures::{joined, with_line};
use dossier_commands::Ended;
use std::test::Fail;

#[test]
fn a_day_with_its_parts(rt: HostRuntime) -> Result<(), Fail> {
    let text = bundle(rt.alloc(), TWO_TASKS, b"parts 2", &[PART_A, PART_B])?;
    assert_told(
        &rt,
        rt.alloc(),
        text,
        Ended::Done,
        b"yes unassigned 0 bound 0 parts 2\n",
    )?;
    let text = bundle(rt.alloc(), TWO_TASKS, b"parts 1", &[PART_B])?;
    assert_told(
        &rt,
        rt.alloc(),
        text,
        Ended::Done,
        b"yes unassigned 0 bound 0 parts 1\n",
    )?;
    let text = bundle(rt.alloc(), NO_TASK, b"parts 0", &[])?;
    assert_told(
        &rt,
        rt.alloc(),
        text,
        Ended::Done,
        b"yes unassigned 0 bound 0 parts 0\n",
    )
}

#[test]
fn the_larger_bound(rt: HostRuntime) -> Result<(), Fail> {
    let yes = b"yes unassigned 1 bound 1 parts 1\n";
    let text = bundle(rt.alloc(), NO_BOUND, b"parts 1", &[WITH_POOL])?;
    assert_told(&rt, rt.alloc(), text, Ended::Done, yes)?;
    let text = bundle(rt.alloc(), WITH_POOL, b"parts 1", &[NO_BOUND])?;
    assert_told(&rt, rt.alloc(), text, Ended::Done, yes)?;
    let text = bundle(rt.alloc(), WITH_POOL, b"parts 1", &[WITH_POOL])?;
    assert_told(&rt, rt.alloc(), text, Ended::Done, yes)
}

#[test]
fn a_part_of_another_form(rt: HostRuntime) -> Result<(), Fail> {
    let text = bundle(rt.alloc(), WITH_POOL, b"parts 1", &[FIRST_ALONE])?;
    assert_told(
        &rt,
        rt.alloc(),
        text,
        Ended::Done,
        b"yes unassigned 1 bound 1 parts 1\n",
    )?;
    // The task has a frozen job in the day, and none in the part.
    let text = bundle(rt.alloc(), WITH_FROZEN, b"parts 1", &[FIRST_ALONE])?;
    assert_told(&rt, rt.alloc(), text, Ended::No, b"no 38 Part\n")?;
    // The other task has none.
    let mut text = bundle(rt.alloc(), WITH_FROZEN, b"parts 1", &[])?;
    let part = with_line(rt.alloc(), FIRST_ALONE, 8, b"task B 1 420 420 30 1")?;
    text.extend_from_slice(&part)?;
    assert_told(
        &rt,
        rt.alloc(),
        text,
        Ended::Done,
        b"yes unassigned 1 bound 1 parts 1\n",
    )
}

#[test]
fn one_bundle_after_another(rt: HostRuntime) -> Result<(), Fail> {
    let alloc = rt.alloc();
    let one = bundle(alloc, TWO_TASKS, b"parts 2", &[PART_B, PART_A])?;
    let two = bundle(alloc, NO_TASK, b"parts 0", &[])?;
    let bad = bundle(alloc, NO_TASK, b"parts 1", &[PART_A])?;
    let text = joined(alloc, &[&one, &two])?;
    assert_told(
        &rt,
        rt.alloc(),
        text,
        Ended::Done,
        b"yes unassigned 0 bound 0 parts 2\nyes unassigned 0 bound 0 parts 0\n",
    )?;
    let text = joined(alloc, &[&two, &bad, &one])?;
    assert_told(
        &rt,
        rt.alloc(),
        text,
        Ended::No,
        b"yes unassigned 0 bound 0 parts 0\nno 39 Part\n",
    )
}

#[test]
fn a_read_and_a_write_that_fail(rt: HostRuntime) -> Result<(), Fail> {
    let alloc = rt.alloc();
    let text = bundle(alloc, TWO_TASKS, b"parts 2", &[PART_A, PART_B])?;
    let (ended, written) = answer(alloc, text.to_vec(alloc)?, &[1], &[])?;
    assert_that(&rt, ended == Ended::ReadFault, &written, b"");
    assert_that(&rt, written.is_empty(), &written, b"");
    let (ended, written) = answer(alloc, text, &[], &[2])?;
    assert_that(&rt, ended == Ended::WriteFault, &written, b"yes una");
    assert_that(
        &rt,
        written == b"yes una".to_vec(alloc)?,
        &written,
        b"yes una",
    );
    Ok(())
}
