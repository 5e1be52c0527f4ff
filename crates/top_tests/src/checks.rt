// What `crew check` answers and writes, and what other words get.
use crate::answers::{YES, answer, assert_told, check, status_of};
use crate::asserts::same_at;
use crew_cli::run::Status;
use crew_fixtures::dossiers::{EIGHT, LACKS_SKILL, Lines, ONE_TASK, TOGETHER, WITH_POOL};
use crew_fixtures::{joined, text_of, with_line};
use std::mem;
use std::test::Fail;

#[test]
fn a_yes_line_for_each_dossier(rt: HostRuntime) -> Result<(), Fail> {
    let mut input = text_of(rt.alloc(), ONE_TASK)?;
    input.extend_from_slice(&text_of(rt.alloc(), TOGETHER)?)?;
    let told = check(rt.alloc(), input)?;
    let lines = joined(rt.alloc(), &[YES, YES])?;
    assert_told(&rt, &told, Status::Done, &lines);
    Ok(())
}

#[test]
fn a_task_of_eight_teams(rt: HostRuntime) -> Result<(), Fail> {
    let told = check(rt.alloc(), text_of(rt.alloc(), EIGHT)?)?;
    assert_told(&rt, &told, Status::Done, YES);
    let nine = with_line(rt.alloc(), EIGHT, 18, b"do 0 420 0 1 2 3 4 5 6 7 7")?;
    let told = check(rt.alloc(), nine)?;
    assert_told(&rt, &told, Status::No, b"no 18 Plan Count 0\n");
    Ok(())
}

#[test]
fn the_first_line_that_is_refused(rt: HostRuntime) -> Result<(), Fail> {
    let cases: [(&[u8], &[u8]); 4] = [
        (b"", b"no 1 End\n"),
        (b"crew dossier 1", b"no 1 End\n"),
        (b"\n", b"no 1 Shape\n"),
        (b"crew dossier 1\n", b"no 2 End\n"),
    ];
    for (input, line) in cases {
        let told = check(rt.alloc(), input.to_vec(rt.alloc())?)?;
        assert_told(&rt, &told, Status::No, line);
    }
    Ok(())
}

#[test]
fn a_last_line_that_is_cut_off(rt: HostRuntime) -> Result<(), Fail> {
    let text = text_of(rt.alloc(), ONE_TASK)?;
    let cases: [(&[u8], &[u8]); 3] = [
        (b"\n", b"no 14 End\n"),
        (b"end\n", b"no 14 End\n"),
        (b"\nend\n", b"no 13 End\n"),
    ];
    for (back, line) in cases {
        let front = text.strip_suffix(back).ok_or("a front")?;
        let told = check(rt.alloc(), front.to_vec(rt.alloc())?)?;
        assert_told(&rt, &told, Status::No, line);
    }
    Ok(())
}

/// A dossier, the number of a line of it, another line in its place, and what is written then.
type Case = (Lines, usize, &'static [u8], &'static [u8]);

const BROKEN: [Case; 11] = [
    (ONE_TASK, 11, b"do 0 451 0", b"no 11 Plan Window 0\n"),
    (ONE_TASK, 11, b"do 0 419 0", b"no 11 Plan Window 0\n"),
    (ONE_TASK, 11, b"do 0 450 0", YES),
    (ONE_TASK, 11, b"do 0 420 0 0", b"no 11 Plan Count 0\n"),
    (ONE_TASK, 10, b"plan 1 0\ntree 0 0 1 0", b"no 11 Budget\n"),
    (ONE_TASK, 10, b"plan 0 1", b"no 13 Bound\n"),
    (
        LACKS_SKILL,
        11,
        b"plan 0 0\ndo 0 420 0 0",
        b"no 12 Plan Count 0\n",
    ),
    (
        LACKS_SKILL,
        11,
        b"plan 0 0\ndo 0 420 0 1",
        b"no 12 Plan Skill 1 0\n",
    ),
    (WITH_POOL, 2, b"size 01 2 2 1", b"no 2 Number\n"),
    (WITH_POOL, 2, b"size 65 2 2 1", b"no 2 Number\n"),
    (WITH_POOL, 8, b"task A 1 420 1141 30 1", b"no 8 Instance\n"),
];

#[test]
fn the_first_rule_that_is_broken(rt: HostRuntime) -> Result<(), Fail> {
    for (dossier, number, line, told) in BROKEN {
        let input = with_line(rt.alloc(), dossier, number, line)?;
        let said = check(rt.alloc(), input)?;
        assert_told(&rt, &said, status_of(told), told);
    }
    Ok(())
}

#[test]
fn one_wrong_byte_anywhere_is_refused(rt: HostRuntime) -> Result<(), Fail> {
    let mut input = text_of(rt.alloc(), ONE_TASK)?;
    for at in 0..input.len() {
        let byte = mem::replace(&mut input[at], b'#');
        let (status, _) = check(rt.alloc(), input.clone()?)?;
        same_at(&rt, &status, &Status::No, &at);
        input[at] = byte;
    }
    Ok(())
}

#[test]
fn lines_are_numbered_over_the_whole_input(rt: HostRuntime) -> Result<(), Fail> {
    let good = text_of(rt.alloc(), ONE_TASK)?;
    let cut = good.strip_suffix(b"\n").ok_or("a front")?;
    let late = with_line(rt.alloc(), ONE_TASK, 11, b"do 0 451 0")?;
    let low = with_line(rt.alloc(), WITH_POOL, 20, b"phi 1 839999999")?;
    let cases: [(&[u8], &[u8]); 6] = [
        (b"x", b"no 15 End\n"),
        (b"\n", b"no 15 Shape\n"),
        (b"end\n", b"no 15 Shape\n"),
        (cut, b"no 28 End\n"),
        (&late, b"no 25 Plan Window 0\n"),
        (&low, b"no 34 Potential 0 1\n"),
    ];
    for (more, line) in cases {
        let told = check(rt.alloc(), joined(rt.alloc(), &[&good, more])?)?;
        let lines = joined(rt.alloc(), &[YES, line])?;
        assert_told(&rt, &told, Status::No, &lines);
    }
    Ok(())
}

#[test]
fn a_line_has_at_most_131072_bytes(rt: HostRuntime) -> Result<(), Fail> {
    let mut longest = vec![in rt.alloc(); b'a'; 131_072]?;
    longest.push(b'\n')?;
    let told = check(rt.alloc(), longest)?;
    assert_told(&rt, &told, Status::No, b"no 1 Shape\n");
    let told = check(rt.alloc(), vec![in rt.alloc(); b'a'; 131_073]?)?;
    assert_told(&rt, &told, Status::No, b"no 1 TooLong\n");
    Ok(())
}

#[test]
fn other_words_have_no_form(rt: HostRuntime) -> Result<(), Fail> {
    let forms: [&[&str]; 5] = [&[], &["check", "x"], &["days"], &["checks"], &["roster"]];
    for words in forms {
        let input = text_of(rt.alloc(), ONE_TASK)?;
        let told = answer(rt.alloc(), words, input, &[1], &[1])?;
        assert_told(&rt, &told, Status::Words, b"");
    }
    Ok(())
}
