// The line of a trial, and the words that ask for one.
use crate::answers::{answer, assert_answer, holds_at};
use crew_cli::run::Status;
use crew_fixtures::Shown;
use std::alloc::{AllocError, Global};
use std::test::Fail;

/// A day of eight teams and forty tasks, and a budget of twenty nodes.
const TRIAL: &[&str] = &["trial", "7", "8", "40", "20"];

/// The status that the counts of a trial's line show: its unassigned tasks and its bound are its words 5 and 7, from 0.
fn shown_status(alloc: Global, line: &[u8]) -> Result<Status, AllocError> {
    let mut words = Vec::new(alloc);
    for word in line.split(|b| *b == b' ') {
        words.push(word)?;
    }
    Ok(if words.get(5) == words.get(7) {
        Status::Done
    } else {
        Status::Unproved
    })
}

#[test]
fn a_trial_twice(rt: HostRuntime) -> Result<(), Fail> {
    let alloc = rt.alloc();
    let (status, line) = answer(alloc, TRIAL)?;
    let (again, same) = answer(alloc, TRIAL)?;
    assert_eq!(rt; again, status);
    holds_at(&rt, line == same, &(Shown(&line), Shown(&same)));
    let begins = line.starts_with(b"trial 7 8 40 unassigned ");
    holds_at(&rt, begins && line.ends_with(b" yes\n"), &Shown(&line));
    assert_eq!(rt; status, shown_status(alloc, &line)?);
    Ok(())
}

#[test]
fn one_team_and_one_task(rt: HostRuntime) -> Result<(), Fail> {
    assert_answer(
        &rt,
        rt.alloc(),
        &["trial", "0", "1", "1", "0"],
        Status::Done,
        b"trial 0 1 1 unassigned 0 bound 0 splits 0 closed 0 open 1 unshown 0 yes\n",
    )
}

#[test]
fn one_team_for_a_task_of_two(rt: HostRuntime) -> Result<(), Fail> {
    assert_answer(
        &rt,
        rt.alloc(),
        &["trial", "5", "1", "1", "0"],
        Status::Unproved,
        b"trial 5 1 1 unassigned 1 bound 0 splits 0 closed 0 open 1 unshown 0 yes\n",
    )
}

/// Words at the ends of their ranges.
const GREATEST: [&[&str]; 2] = [
    &["trial", "9223372036854775807", "1", "1", "0"],
    &["trial", "0", "64", "1", "100000"],
];

#[test]
fn words_at_the_ends_of_their_ranges(rt: HostRuntime) -> Result<(), Fail> {
    for words in GREATEST {
        let (status, line) = answer(rt.alloc(), words)?;
        holds_at(
            &rt,
            status == shown_status(rt.alloc(), &line)?,
            &Shown(&line),
        );
    }
    Ok(())
}

/// Words that ask for no trial: too few or too many, another spelling of a number, or a number that is out of its range.
const NONE: [&[&str]; 14] = [
    &[],
    &["trial"],
    &["trial", "7", "8"],
    &["trial", "7", "8", "40", "20", "1"],
    &["Trial", "7", "8", "40", "20"],
    &["trial", "07", "8", "40", "20"],
    &["trial", "7", "8", "+40", "20"],
    &["trial", "-1", "8", "40", "20"],
    &["trial", "9223372036854775808", "8", "40", "20"],
    &["trial", "7", "0", "40", "20"],
    &["trial", "7", "65", "40", "20"],
    &["trial", "7", "8", "0", "20"],
    &["trial", "7", "8", "401", "20"],
    &["trial", "7", "8", "40", "100001"],
];

#[test]
fn words_that_ask_for_no_trial(rt: HostRuntime) -> Result<(), Fail> {
    for words in NONE {
        assert_answer(&rt, rt.alloc(), words, Status::Words, b"")?;
    }
    Ok(())
}
