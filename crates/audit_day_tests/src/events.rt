// Days without a round, and of two things that are wrong the first.
use crate::answers::{assert_audit, assert_line};
use crate::days::ONE_NODE;
use crew_fixtures::dossiers::ONE_TASK;
use crew_fixtures::{joined, text_of, with_line};
use std::alloc::{AllocError, Global};
use std::test::Fail;

/// An input, and what an audit writes.
type Input = (&'static [u8], &'static [u8]);

/// Days without a round, the first of which is empty, and inputs in which no line stands between a day and dossiers. The line
/// is one of its bytes alone, also within quotes.
const NO_ROUND: [Input; 9] = [
    (b"dossiers\n", b"audit 0 yes\n"),
    (b"\n\r\ndossiers\n", b"audit 0 yes\n"),
    (b"place,BASE\ndossiers\n", b"audit 0 yes\n"),
    (b"place,BASE\ndossiers\ndossiers\n", b"audit no 0 More\n"),
    (b"", b"audit no 0 End\n"),
    (b"place,BASE\n", b"audit no 0 End\n"),
    (b"place,BASE\ndossiers", b"audit no 0 End\n"),
    (b"dossiers\r\ndossiers\n", b"refused 1 Kind\n"),
    (b"place,\"\ndossiers\n\"\n", b"refused 1 Spelling 1\n"),
];

#[test]
fn the_line_behind_a_day(rt: HostRuntime) -> Result<(), Fail> {
    for (input, line) in NO_ROUND {
        assert_line(&rt, rt.alloc(), input, line)?;
    }
    Ok(())
}

/// The dossier of a team and a task.
fn good(alloc: Global) -> Result<Vec<u8>, AllocError> {
    text_of(alloc, ONE_TASK)
}

/// The same with a second line that has too few words.
fn bad(alloc: Global) -> Result<Vec<u8>, AllocError> {
    with_line(alloc, ONE_TASK, 2, b"size 1 1 2")
}

#[test]
fn a_dossier_of_no_round(rt: HostRuntime) -> Result<(), Fail> {
    let alloc = rt.alloc();
    let one = good(alloc)?;
    assert_audit(&rt, alloc, b"place,BASE\n", &one, b"audit no 0 More\n")?;
    let two = joined(alloc, &[&one, &one])?;
    assert_audit(&rt, alloc, ONE_NODE, &two, b"audit no 1 More\n")?;
    let more = joined(alloc, &[&one, b"\n"])?;
    assert_audit(&rt, alloc, ONE_NODE, &more, b"audit no 1 More\n")
}

#[test]
fn a_dossier_that_is_bad_or_does_not_come(rt: HostRuntime) -> Result<(), Fail> {
    let alloc = rt.alloc();
    assert_audit(&rt, alloc, ONE_NODE, b"", b"audit no 1 1 End\n")?;
    assert_audit(&rt, alloc, ONE_NODE, &bad(alloc)?, b"audit no 1 2 Shape\n")?;
    // Lines are counted on behind the first dossier.
    let day = joined(alloc, &[ONE_NODE, b"plan,1\n"])?;
    let dossiers = joined(alloc, &[&good(alloc)?, &bad(alloc)?])?;
    assert_audit(&rt, alloc, &day, &dossiers, b"audit no 2 16 Shape\n")
}

/// A record behind a round, and what an audit writes if the round's dossier is good and if it is bad.
type Behind = (&'static [u8], &'static [u8], &'static [u8]);

const BEHIND: [Behind; 3] = [
    (b"plaice,X\n", b"refused 7 Kind\n", b"audit no 1 2 Shape\n"),
    (
        b"cancel,B\n",
        b"refused 7 NoTask\n",
        b"audit no 1 2 Shape\n",
    ),
    (
        b"plan,1\nplaice,X\n",
        b"audit no 2 15 End\n",
        b"audit no 1 2 Shape\n",
    ),
];

#[test]
fn the_first_event_is_told(rt: HostRuntime) -> Result<(), Fail> {
    let alloc = rt.alloc();
    for (records, of_good, of_bad) in BEHIND {
        let day = joined(alloc, &[ONE_NODE, records])?;
        assert_audit(&rt, alloc, &day, &good(alloc)?, of_good)?;
        assert_audit(&rt, alloc, &day, &bad(alloc)?, of_bad)?;
    }
    Ok(())
}

#[test]
fn a_dossier_of_another_instance_is_read_first(rt: HostRuntime) -> Result<(), Fail> {
    let alloc = rt.alloc();
    assert_audit(
        &rt,
        alloc,
        b"plan,1\n",
        &bad(alloc)?,
        b"audit no 1 2 Shape\n",
    )?;
    assert_audit(
        &rt,
        alloc,
        b"plan,2\n",
        &good(alloc)?,
        b"audit no 1 Instance\n",
    )
}
