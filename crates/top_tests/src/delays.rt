// What `crew delays` answers and writes.
use crate::answers::{answer, assert_told};
use crew_cli::run::Status;
use crew_fixtures::dossiers::{Lines, ONE_TASK, TOGETHER, WITH_POOL};
use crew_fixtures::{joined, text_of, with_line};
use std::alloc::{AllocError, Global};
use std::process::Abort;
use std::test::Fail;

/// Two teams: each does a task alone, then both do J, and each goes on to a task of its own.
pub const JOINT: Lines = &[
    b"crew dossier 1",
    b"size 2 5 2 0",
    b"place BASE",
    b"place G1",
    b"travel 0 10",
    b"travel 10 0",
    b"team T1 0 360 840",
    b"team T2 0 360 840",
    b"task A 1 420 600 30 1",
    b"task B 1 420 600 30 1",
    b"task J 1 420 600 30 2",
    b"task D 1 420 600 30 1",
    b"task E 1 420 600 30 1",
    b"pool 0 0",
    b"plan 0 0",
    b"do 0 420 0",
    b"do 1 420 1",
    b"do 2 450 0 1",
    b"do 3 480 0",
    b"do 4 490 1",
    b"tree 0 0 1 0",
    b"leaf bare",
    b"end",
];

/// Three teams that hand a delay on: A is the first team's, J the first two teams', K the last two teams', and Z the
/// third team's.
const HANDED_ON: Lines = &[
    b"crew dossier 1",
    b"size 3 4 2 0",
    b"place BASE",
    b"place G1",
    b"travel 0 10",
    b"travel 10 0",
    b"team T1 0 360 840",
    b"team T2 0 360 840",
    b"team T3 0 360 840",
    b"task Z 1 420 600 30 1",
    b"task K 1 420 600 30 2",
    b"task J 1 420 600 30 2",
    b"task A 1 420 600 30 1",
    b"pool 0 0",
    b"plan 0 0",
    b"do 0 530 2",
    b"do 1 500 1 2",
    b"do 2 460 0 1",
    b"do 3 420 0",
    b"tree 0 0 1 0",
    b"leaf bare",
    b"end",
];

/// These lines, the line `dossier`, and the lines of a dossier.
pub fn late_input(
    alloc: Global,
    lates: &[&[u8]],
    dossier: &[&[u8]],
) -> Result<Vec<u8>, AllocError> {
    joined(
        alloc,
        &[
            &text_of(alloc, lates)?,
            b"dossier\n",
            &text_of(alloc, dossier)?,
        ],
    )
}

/// Asserts what `crew delays` answers to an input, and what it writes.
fn assert_answer(
    rt: &impl Abort,
    alloc: Global,
    input: Vec<u8>,
    status: Status,
    text: &[u8],
) -> Result<(), Fail> {
    let told = answer(alloc, &["delays"], input, &[], &[])?;
    assert_told(rt, &told, status, text);
    Ok(())
}

/// Lines before a dossier, the dossier, and what is written then.
type Case = (&'static [&'static [u8]], Lines, &'static [u8]);

const DELAYS: [Case; 7] = [
    // The task ends late, and no other waits for it.
    (&[b"late J 460"], TOGETHER, b"wave 0 1\n"),
    (&[], TOGETHER, b"wave 0 1\n"),
    (&[], WITH_POOL, b"wave 0 1\n"),
    // The end that is told is before the planned one.
    (&[b"late B 430"], JOINT, b"wave 0 5\n"),
    // The joint task waits for its second team, and the first team's next task with it.
    (
        &[b"late B 455"],
        JOINT,
        b"wave 2 5\ndelay J 450 455 B J\ndelay D 480 485 B J D\n",
    ),
    (
        &[b"late A 480"],
        HANDED_ON,
        b"wave 3 4\ndelay Z 530 540 A J K Z\ndelay K 500 510 A J K\ndelay J 460 480 A J\n",
    ),
    (
        &[b"late B 5760", b"late A 470"],
        JOINT,
        b"wave 3 5\ndelay J 450 5760 B J\ndelay D 480 5790 B J D\ndelay E 490 5790 B J E\n",
    ),
];

#[test]
fn what_waits_for_what(rt: HostRuntime) -> Result<(), Fail> {
    let alloc = rt.alloc();
    for (lates, dossier, text) in DELAYS {
        let input = late_input(alloc, lates, dossier)?;
        assert_answer(&rt, alloc, input, Status::Done, text)?;
    }
    Ok(())
}

/// A first line, and what is written for it.
const FIRST: [(&[u8], &[u8]); 16] = [
    (b"late K 460", b"no 1 Name\n"),
    (b"late J* 460", b"no 1 Name\n"),
    (b"late  460", b"no 1 Name\n"),
    (b"late J* 5761", b"no 1 Name\n"),
    (b"late J 5761", b"no 1 Number\n"),
    (b"late J -1", b"no 1 Number\n"),
    (b"late J 0460", b"no 1 Number\n"),
    (b"late J 07:40", b"no 1 Number\n"),
    (b"late J", b"no 1 Shape\n"),
    (b"late J 460 0", b"no 1 Shape\n"),
    (b"late J 460 ", b"no 1 Shape\n"),
    (b"Late J 460", b"no 1 Shape\n"),
    (b"dossier 1", b"no 1 Shape\n"),
    (b" dossier", b"no 1 Shape\n"),
    (b"crew dossier 1", b"no 1 Shape\n"),
    (b"", b"no 1 Shape\n"),
];

#[test]
fn the_first_fault_of_a_line(rt: HostRuntime) -> Result<(), Fail> {
    let alloc = rt.alloc();
    for (line, text) in FIRST {
        let input = late_input(alloc, &[line], TOGETHER)?;
        assert_answer(&rt, alloc, input, Status::No, text)?;
    }
    Ok(())
}

/// Lines before a dossier of which one is refused.
const LATER: [(&[&[u8]], &[u8]); 4] = [
    // A name that an earlier line has is told after the line's own faults.
    (&[b"late J 460", b"late J 470"], b"no 2 Name\n"),
    (&[b"late J 460", b"late J 5761"], b"no 2 Number\n"),
    (&[b"late J 460", b"late K 460"], b"no 2 Name\n"),
    // The first line of two whose tasks are not done.
    (&[b"late L 460", b"late K 460"], b"no 1 Name\n"),
];

#[test]
fn lines_that_do_not_go_together(rt: HostRuntime) -> Result<(), Fail> {
    let alloc = rt.alloc();
    for (lates, text) in LATER {
        let input = late_input(alloc, lates, TOGETHER)?;
        assert_answer(&rt, alloc, input, Status::No, text)?;
    }
    // The plan leaves B open.
    let open = late_input(alloc, &[b"late A 460", b"late B 460"], WITH_POOL)?;
    assert_answer(&rt, alloc, open, Status::No, b"no 2 Name\n")
}

#[test]
fn an_input_that_stops(rt: HostRuntime) -> Result<(), Fail> {
    let alloc = rt.alloc();
    let cases: [(&[u8], &[u8]); 6] = [
        (b"", b"no 1 End\n"),
        (b"late J 460", b"no 1 End\n"),
        (b"late J 460\n", b"no 2 End\n"),
        (b"dossier", b"no 1 End\n"),
        (b"dossier\n", b"no 2 End\n"),
        (b"late J 460\ndossier\ncrew dossier 1\n", b"no 4 End\n"),
    ];
    for (input, text) in cases {
        assert_answer(&rt, alloc, input.to_vec(alloc)?, Status::No, text)?;
    }
    let long = vec![in alloc; b'a'; 131_073]?;
    assert_answer(&rt, alloc, long, Status::No, b"no 1 TooLong\n")?;
    let mut longest = vec![in alloc; b'a'; 131_072]?;
    longest.push(b'\n')?;
    assert_answer(&rt, alloc, longest, Status::No, b"no 1 Shape\n")
}

#[test]
fn the_dossier_has_its_own_reasons(rt: HostRuntime) -> Result<(), Fail> {
    let alloc = rt.alloc();
    let low = with_line(alloc, WITH_POOL, 20, b"phi 1 839999999")?;
    // It comes before a task that is not done.
    let input = joined(alloc, &[b"late K 460\ndossier\n", &low])?;
    assert_answer(&rt, alloc, input, Status::No, b"no 22 Potential 0 1\n")?;
    let outside = with_line(alloc, ONE_TASK, 11, b"do 0 451 0")?;
    let input = joined(alloc, &[b"dossier\n", &outside])?;
    assert_answer(&rt, alloc, input, Status::No, b"no 12 Plan Window 0\n")
}

/// After the fifteen lines of an input without a late task, these bytes are refused.
fn is_refused_after(rt: &impl Abort, alloc: Global, more: &[u8]) -> Result<(), Fail> {
    let one = late_input(alloc, &[], ONE_TASK)?;
    let input = joined(alloc, &[&one, more])?;
    assert_answer(rt, alloc, input, Status::No, b"no 16 Shape\n")
}

#[test]
fn nothing_comes_after_the_dossier(rt: HostRuntime) -> Result<(), Fail> {
    let alloc = rt.alloc();
    is_refused_after(&rt, alloc, b"x")?;
    is_refused_after(&rt, alloc, b"\n")?;
    is_refused_after(&rt, alloc, b"late J 460\n")?;
    is_refused_after(&rt, alloc, b"dossier\n")?;
    is_refused_after(&rt, alloc, b"crew dossier 1\n")?;
    let text = text_of(alloc, ONE_TASK)?;
    is_refused_after(&rt, alloc, &text)?;
    // A line that is too long is no less too much, and comes before a task that is not done.
    let undone = late_input(alloc, &[b"late K 460"], ONE_TASK)?;
    let long = vec![in alloc; b'a'; 131_073]?;
    let input = joined(alloc, &[&undone, &long])?;
    assert_answer(&rt, alloc, input, Status::No, b"no 17 Shape\n")
}

/// So many lines, each of a task of its own, which no dossier here has.
fn many(alloc: Global, count: u32) -> Result<Vec<u8>, Fail> {
    let mut text = Vec::new(alloc);
    for n in 0..count {
        let line = format!(in alloc; "late T{n} 460\n")?;
        text.extend_from_slice(line.as_bytes())?;
    }
    Ok(text)
}

#[test]
fn there_are_at_most_400_lines(rt: HostRuntime) -> Result<(), Fail> {
    let alloc = rt.alloc();
    let behind = late_input(alloc, &[], ONE_TASK)?;
    let most = joined(alloc, &[&many(alloc, 400)?, &behind])?;
    assert_answer(&rt, alloc, most, Status::No, b"no 1 Name\n")?;
    let more = joined(alloc, &[&many(alloc, 401)?, &behind])?;
    assert_answer(&rt, alloc, more, Status::No, b"no 401 Shape\n")?;
    // Whatever stands in it.
    let other = joined(alloc, &[&many(alloc, 400)?, b"late T0 5761\n", &behind])?;
    assert_answer(&rt, alloc, other, Status::No, b"no 401 Shape\n")
}
