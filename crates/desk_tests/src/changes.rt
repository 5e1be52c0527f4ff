// What `changes` answers and writes.
use crate::answers::{answer, assert_status, assert_text};
use crew_fixtures::dossiers::{TOGETHER, TWO_TASKS, WITH_POOL};
use crew_fixtures::{joined, text_of, with_line};
use desk_cli::status::Status;
use std::process::Abort;
use std::test::Fail;

#[test]
fn nothing_is_told_of_the_first(rt: HostRuntime) -> Result<(), Fail> {
    let input = text_of(rt.alloc(), TOGETHER)?;
    let (outcome, text) = answer(rt.alloc(), &["changes"], &input, &[], &[])?;
    assert_status(&rt, &outcome, Status::Done);
    assert_text(&rt, &text, b"");
    Ok(())
}

#[test]
fn the_same_plan_again(rt: HostRuntime) -> Result<(), Fail> {
    let first = text_of(rt.alloc(), TOGETHER)?;
    let input = joined(rt.alloc(), &[&first, &first])?;
    let (outcome, text) = answer(rt.alloc(), &["changes"], &input, &[], &[])?;
    assert_status(&rt, &outcome, Status::Done);
    assert_text(
        &rt,
        &text,
        b"round 2 kept 1 moved 0 others 0 new 0 gone 0\n",
    );
    Ok(())
}

#[test]
fn other_words_are_no_command(rt: HostRuntime) -> Result<(), Fail> {
    let (outcome, text) = answer(rt.alloc(), &["change"], b"", &[], &[])?;
    assert_status(&rt, &outcome, Status::Words);
    assert_text(&rt, &text, b"");
    let (outcome, _) = answer(rt.alloc(), &["changes", "changes"], b"", &[], &[])?;
    assert_status(&rt, &outcome, Status::Words);
    let (outcome, _) = answer(rt.alloc(), &[], b"", &[], &[])?;
    assert_status(&rt, &outcome, Status::Words);
    Ok(())
}

#[test]
fn moved_and_by_other_teams(rt: HostRuntime) -> Result<(), Fail> {
    let first = text_of(rt.alloc(), TWO_TASKS)?;
    let moved = with_line(rt.alloc(), TWO_TASKS, 13, b"do 0 430 0")?;
    let others = with_line(rt.alloc(), TWO_TASKS, 14, b"do 1 500 0")?;
    let input = joined(rt.alloc(), &[&first, &moved, &others])?;
    let (outcome, text) = answer(rt.alloc(), &["changes"], &input, &[], &[])?;
    assert_status(&rt, &outcome, Status::Done);
    assert_text(
        &rt,
        &text,
        b"round 2 kept 1 moved 1 others 0 new 0 gone 0
A 07:00 to 07:10
round 3 kept 0 moved 1 others 1 new 0 gone 0
A 07:10 to 07:00
B T2 to T1
",
    );
    Ok(())
}

#[test]
fn new_open_and_cancelled(rt: HostRuntime) -> Result<(), Fail> {
    let first = text_of(rt.alloc(), TOGETHER)?;
    let second = text_of(rt.alloc(), WITH_POOL)?;
    let third = with_line(rt.alloc(), WITH_POOL, 14, b"do 1 420 0")?;
    let input = joined(rt.alloc(), &[&first, &second, &third])?;
    let (outcome, text) = answer(rt.alloc(), &["changes"], &input, &[], &[])?;
    assert_status(&rt, &outcome, Status::Done);
    assert_text(
        &rt,
        &text,
        b"round 2 kept 0 moved 0 others 0 new 1 gone 1
A done now 07:00 T1
J cancelled
round 3 kept 0 moved 0 others 0 new 1 gone 1
B done now 07:00 T1
A open now
",
    );
    Ok(())
}

#[test]
fn tasks_are_known_by_name(rt: HostRuntime) -> Result<(), Fail> {
    // The same tasks in the other order: their numbers change, and nothing else.
    let first = text_of(rt.alloc(), TWO_TASKS)?;
    let second = text_of(
        rt.alloc(),
        &[
            b"crew dossier 1",
            b"size 2 2 2 1",
            b"place BASE",
            b"place G1",
            b"travel 0 10",
            b"travel 10 0",
            b"team T2 0 360 840",
            b"team T1 0 360 840 1 3",
            b"task B 1 500 500 30 1",
            b"task A 1 420 450 30 1 1 3",
            b"pool 0 0",
            b"plan 0 0",
            b"do 0 500 0",
            b"do 1 420 1",
            b"tree 0 0 1 0",
            b"leaf bare",
            b"end",
        ],
    )?;
    let input = joined(rt.alloc(), &[&first, &second])?;
    let (outcome, text) = answer(rt.alloc(), &["changes"], &input, &[], &[])?;
    assert_status(&rt, &outcome, Status::Done);
    assert_text(
        &rt,
        &text,
        b"round 2 kept 2 moved 0 others 0 new 0 gone 0\n",
    );
    Ok(())
}

#[test]
fn what_is_before_a_refusal_is_told(rt: HostRuntime) -> Result<(), Fail> {
    let first = text_of(rt.alloc(), TOGETHER)?;
    let low = with_line(rt.alloc(), WITH_POOL, 20, b"phi 1 839999999")?;
    let input = joined(rt.alloc(), &[&first, &first, &low])?;
    let (outcome, text) = answer(rt.alloc(), &["changes"], &input, &[], &[])?;
    assert_status(&rt, &outcome, Status::No);
    assert_text(
        &rt,
        &text,
        b"round 2 kept 1 moved 0 others 0 new 0 gone 0\n",
    );
    let (outcome, text) = answer(rt.alloc(), &["changes"], b"", &[], &[])?;
    assert_status(&rt, &outcome, Status::No);
    assert_text(&rt, &text, b"");
    Ok(())
}
