// What `crew squeeze` and `crew squeeze-check` answer and write.
use crate::answers::{answer, assert_told, status_of};
use crate::asserts::same_at;
use crate::trees::end_line;
use crew_cli::run::Status;
use crew_fixtures::dossiers::{
    EIGHT, LACKS_SKILL, Lines, ONE_TASK, TWO_TASKS, WITH_FROZEN, WITH_POOL, WITH_WINDOW,
};
use crew_fixtures::{joined, text_of, with_line};
use std::alloc::Global;
use std::mem;
use std::test::Fail;

/// The sheet of the dossier with a pool after one step: each task's price is a quarter of a task, and the team is worth one.
const ONE_STEP: Lines = &[
    b"crew squeeze 1",
    b"size 1 2 2 1",
    b"place BASE",
    b"place G1",
    b"travel 0 10",
    b"travel 10 0",
    b"team T1 0 360 840",
    b"task A 1 420 420 30 1",
    b"task B 1 420 420 30 1",
    b"frozen 0",
    b"bound 1",
    b"price 0 210000000",
    b"price 1 210000000",
    b"worth 210000000",
    b"steps 0 420 210000000",
    b"steps 1 420 210000000",
    b"end",
];

/// The sheet of the dossier with a window without a step: its task has no minute at which both teams could begin it.
const NO_STEP: Lines = &[
    b"crew squeeze 1",
    b"size 2 1 2 3",
    b"place BASE",
    b"place G1",
    b"travel 0 10",
    b"travel 10 0",
    b"team T1 0 410 460",
    b"team T2 0 440 490",
    b"task J 1 420 480 30 2",
    b"frozen 0",
    b"bound 1",
    b"clock 0 0 0 0 0 0 0 0 0 0 0 0 0 0 0 0 0 0 0 0 0 0 0 0 0 0 0 0 0 0 0 0 0 0 0 0 0 0 0 0 0 0 0 0 0 0 0 0 0 0 0 0 0 0 0 0 0 0 0 0 0 0",
    b"worth 0",
    b"steps 0 420 0",
    b"worth 0",
    b"steps 0 450 0",
    b"end",
];

/// Two tasks of two teams at one minute, of which the first is frozen: so the second is left. Of the three prices of the first
/// one only that of its frozen start counts.
const FROZEN: Lines = &[
    b"crew squeeze 1",
    b"size 2 2 2 1",
    b"place BASE",
    b"place G1",
    b"travel 0 10",
    b"travel 10 0",
    b"team T1 0 360 840",
    b"team T2 0 360 840",
    b"task J 1 420 422 30 2",
    b"task K 1 421 421 30 2",
    b"frozen 1",
    b"keep 0 421 0 1",
    b"bound 1",
    b"clock 0 -7 420000000 -7",
    b"clock 1 420000000",
    b"worth 420000000",
    b"steps 0 421 420000000",
    b"steps 1 421 420000000",
    b"worth 420000000",
    b"steps 0 421 420000000",
    b"steps 1 421 420000000",
    b"end",
];

/// A sheet without teams, whose task has no possible minute.
const NO_TEAM: Lines = &[
    b"crew squeeze 1",
    b"size 0 1 2 0",
    b"place BASE",
    b"place G1",
    b"travel 0 10",
    b"travel 10 0",
    b"task A 1 420 420 30 1",
    b"frozen 0",
    b"bound 1",
    b"price 0 -5",
    b"end",
];

/// A sheet without tasks.
pub const NO_TASK: Lines = &[
    b"crew squeeze 1",
    b"size 1 0 1 0",
    b"place BASE",
    b"travel 0",
    b"team T1 0 360 840",
    b"frozen 0",
    b"bound 0",
    b"worth 5",
    b"end",
];

/// A sheet without teams and tasks.
const NOTHING: Lines = &[
    b"crew squeeze 1",
    b"size 0 0 1 0",
    b"place BASE",
    b"travel 0",
    b"frozen 0",
    b"bound 0",
    b"end",
];

#[test]
fn a_sheet_for_each_dossier(rt: HostRuntime) -> Result<(), Fail> {
    let alloc = rt.alloc();
    let told = answer(
        alloc,
        &["squeeze", "1"],
        text_of(alloc, WITH_POOL)?,
        &[],
        &[],
    )?;
    assert_told(&rt, &told, Status::Done, &text_of(alloc, ONE_STEP)?);
    let behind = joined(
        alloc,
        &[
            &text_of(alloc, WITH_WINDOW)?,
            &with_line(alloc, WITH_POOL, 20, b"phi 1 839999999")?,
        ],
    )?;
    let told = answer(alloc, &["squeeze", "0"], behind, &[], &[])?;
    let lines = joined(
        alloc,
        &[&text_of(alloc, NO_STEP)?, b"no 46 Potential 0 1\n"],
    )?;
    assert_told(&rt, &told, Status::No, &lines);
    Ok(())
}

#[test]
fn other_words_have_no_form(rt: HostRuntime) -> Result<(), Fail> {
    let forms: [&[&str]; 6] = [
        &["squeeze"],
        &["squeeze", "1001"],
        &["squeeze", "01"],
        &["squeeze", "1", "1"],
        &["squeeze-check", "1"],
        &["squeeze-checks"],
    ];
    for words in forms {
        let input = text_of(rt.alloc(), WITH_POOL)?;
        let told = answer(rt.alloc(), words, input, &[1], &[1])?;
        assert_told(&rt, &told, Status::Words, b"");
    }
    Ok(())
}

/// What `crew squeeze-check` answers to this input, and what it writes.
fn check_sheets(alloc: Global, input: Vec<u8>) -> Result<(Status, Vec<u8>), Fail> {
    answer(alloc, &["squeeze-check"], input, &[], &[])
}

const NONE_LEFT: &[u8] = b"yes bound 0\n";

const ONE_LEFT: &[u8] = b"yes bound 1\n";

/// A dossier, the words by which it is squeezed, and what is written of its sheet.
const SQUEEZED: &[(Lines, &[&str], &[u8])] = &[
    (ONE_TASK, &["squeeze", "0"], NONE_LEFT),
    (TWO_TASKS, &["squeeze", "3"], NONE_LEFT),
    (EIGHT, &["squeeze", "1"], NONE_LEFT),
    (LACKS_SKILL, &["squeeze", "0"], ONE_LEFT),
    (WITH_WINDOW, &["squeeze", "0"], ONE_LEFT),
    (WITH_POOL, &["squeeze", "0"], NONE_LEFT),
    (WITH_POOL, &["squeeze", "1"], ONE_LEFT),
    (WITH_FROZEN, &["squeeze", "1"], ONE_LEFT),
];

#[test]
fn what_squeeze_writes_is_taken(rt: HostRuntime) -> Result<(), Fail> {
    for (dossier, words, line) in SQUEEZED {
        let input = text_of(rt.alloc(), dossier)?;
        let (status, sheet) = answer(rt.alloc(), words, input, &[], &[])?;
        same_at(&rt, &status, &Status::Done, words);
        let told = check_sheets(rt.alloc(), sheet)?;
        assert_told(&rt, &told, Status::Done, line);
    }
    Ok(())
}

/// A sheet, the number of a line of it, another line in its place, and what is written then.
type Case = (Lines, usize, &'static [u8], &'static [u8]);

const WHOLE: &[Case] = &[
    (ONE_STEP, 17, b"end", ONE_LEFT),
    (NO_STEP, 17, b"end", ONE_LEFT),
    (FROZEN, 22, b"end", ONE_LEFT),
    (NO_TEAM, 11, b"end", ONE_LEFT),
    (NO_TEAM, 9, b"bound 0", NONE_LEFT),
    (NO_TASK, 9, b"end", NONE_LEFT),
    (NOTHING, 7, b"end", NONE_LEFT),
    (ONE_STEP, 11, b"bound 0", NONE_LEFT),
    (FROZEN, 14, b"clock 0 0 420000000 840000000000000", ONE_LEFT),
];

const HEAD: &[Case] = &[
    (ONE_STEP, 1, b"crew squeeze 2", b"no 1 Shape\n"),
    (ONE_STEP, 1, b"crew dossier 2", b"no 1 Shape\n"),
    (ONE_STEP, 2, b"size 01 2 2 1", b"no 2 Number\n"),
    (ONE_STEP, 4, b"place BASE", b"no 4 Name\n"),
    (ONE_STEP, 8, b"task A 1 420 1141 30 1", b"no 8 Instance\n"),
    (ONE_STEP, 10, b"frozen 3", b"no 10 Number\n"),
    (ONE_STEP, 10, b"pool 0 0", b"no 10 Shape\n"),
    (FROZEN, 12, b"keep 0 423 0 1", b"no 12 Instance\n"),
];

const BOUND: &[Case] = &[
    (ONE_STEP, 11, b"bounds 1", b"no 11 Shape\n"),
    (ONE_STEP, 11, b"bound 1 1", b"no 11 Shape\n"),
    (ONE_STEP, 11, b"bound 3", b"no 11 Number\n"),
    (NO_TEAM, 9, b"bound 2", b"no 9 Number\n"),
    (NO_TASK, 7, b"bound 1", b"no 7 Number\n"),
];

const PRICES: &[Case] = &[
    (ONE_STEP, 12, b"price 1 210000000", b"no 12 Shape\n"),
    (ONE_STEP, 12, b"clock 0 210000000", b"no 12 Shape\n"),
    (ONE_STEP, 12, b"price 0", b"no 12 Shape\n"),
    (ONE_STEP, 12, b"price 0 1 1", b"no 12 Shape\n"),
    (ONE_STEP, 12, b"price 0 -0", b"no 12 Number\n"),
    (ONE_STEP, 12, b"price 0 840000000000001", b"no 12 Number\n"),
    (NO_TEAM, 10, b"price 0 -840000000000001", b"no 10 Number\n"),
    (FROZEN, 14, b"clock 0 420000000", b"no 14 Shape\n"),
    (FROZEN, 14, b"price 0 420000000", b"no 14 Shape\n"),
];

const TEAMS: &[Case] = &[
    (ONE_STEP, 14, b"worth", b"no 14 Shape\n"),
    (ONE_STEP, 14, b"worth -1", b"no 14 Number\n"),
    (NO_TASK, 8, b"worth 05", b"no 8 Number\n"),
    (ONE_STEP, 15, b"steps 1 420 210000000", b"no 15 Shape\n"),
    (ONE_STEP, 15, b"steps 0 420 x", b"no 15 Number\n"),
    (ONE_STEP, 15, b"steps 0 421 210000000", b"no 15 Steps\n"),
    (FROZEN, 17, b"steps 0 420 420000000", b"no 17 Steps\n"),
    (ONE_STEP, 17, b"ends", b"no 17 Shape\n"),
];

/// What is told on the last line of a team, or on that of the last team.
const JUDGED: &[Case] = &[
    (
        ONE_STEP,
        15,
        b"steps 0 420 209999999",
        b"no 16 Potential 0 0\n",
    ),
    (
        ONE_STEP,
        16,
        b"steps 1 420 209999999",
        b"no 16 Potential 0 1\n",
    ),
    (ONE_STEP, 12, b"price 0 210000001", b"no 16 Potential 0 0\n"),
    (
        FROZEN,
        17,
        b"steps 0 421 419999999",
        b"no 18 Potential 0 0\n",
    ),
    (ONE_STEP, 14, b"worth 209999999", b"no 16 Worth 0\n"),
    (FROZEN, 19, b"worth 419999999", b"no 21 Worth 1\n"),
    (ONE_STEP, 11, b"bound 2", b"no 16 Bound\n"),
    (ONE_STEP, 14, b"worth 420000000", b"no 16 Bound\n"),
    (FROZEN, 14, b"clock 0 420000000 -7 -7", b"no 21 Bound\n"),
];

#[test]
fn each_rule_of_a_sheet(rt: HostRuntime) -> Result<(), Fail> {
    for table in [WHOLE, HEAD, BOUND, PRICES, TEAMS, JUDGED] {
        for (sheet, number, line, expected) in table {
            let input = with_line(rt.alloc(), sheet, *number, line)?;
            let told = check_sheets(rt.alloc(), input)?;
            assert_told(&rt, &told, status_of(expected), expected);
        }
    }
    Ok(())
}

#[test]
fn each_front_of_a_sheet_is_too_short(rt: HostRuntime) -> Result<(), Fail> {
    let text = text_of(rt.alloc(), ONE_STEP)?;
    for n in 0..text.len() {
        let front = &text[..n];
        let told = check_sheets(rt.alloc(), front.to_vec(rt.alloc())?)?;
        assert_told(&rt, &told, Status::No, &end_line(rt.alloc(), front)?);
    }
    Ok(())
}

#[test]
fn one_wrong_byte_anywhere_in_a_sheet_is_refused(rt: HostRuntime) -> Result<(), Fail> {
    let mut input = text_of(rt.alloc(), ONE_STEP)?;
    for at in 0..input.len() {
        let byte = mem::replace(&mut input[at], b'#');
        let (status, _) = check_sheets(rt.alloc(), input.clone()?)?;
        same_at(&rt, &status, &Status::No, &at);
        input[at] = byte;
    }
    Ok(())
}

/// What comes behind a good sheet of 17 lines, and what is written of it.
const BEHIND: &[(&[u8], &[u8])] = &[
    (b"x", b"no 18 End\n"),
    (b"\n", b"no 18 Shape\n"),
    (b"end\n", b"no 18 Shape\n"),
    (b"crew dossier 2\n", b"no 18 Shape\n"),
    (b"crew squeeze 1\n", b"no 19 End\n"),
    (b"crew squeeze 1\nsize 01 2 2 1\n", b"no 19 Number\n"),
];

#[test]
fn lines_are_numbered_over_all_sheets(rt: HostRuntime) -> Result<(), Fail> {
    let good = text_of(rt.alloc(), ONE_STEP)?;
    for (more, line) in BEHIND {
        let mut input = good.clone()?;
        input.extend_from_slice(more)?;
        let told = check_sheets(rt.alloc(), input)?;
        let lines = joined(rt.alloc(), &[ONE_LEFT, line])?;
        assert_told(&rt, &told, Status::No, &lines);
    }
    Ok(())
}

#[test]
fn the_second_sheet_is_refused(rt: HostRuntime) -> Result<(), Fail> {
    let mut input = text_of(rt.alloc(), NO_TASK)?;
    input.extend_from_slice(&with_line(rt.alloc(), ONE_STEP, 11, b"bound 2")?)?;
    input.extend_from_slice(&text_of(rt.alloc(), ONE_STEP)?)?;
    let told = check_sheets(rt.alloc(), input)?;
    let lines = joined(rt.alloc(), &[NONE_LEFT, b"no 25 Bound\n"])?;
    assert_told(&rt, &told, Status::No, &lines);
    Ok(())
}

#[test]
fn sheets_without_teams_or_tasks(rt: HostRuntime) -> Result<(), Fail> {
    let mut input = Vec::new(rt.alloc());
    for sheet in [NO_TEAM, NO_TASK, NOTHING, FROZEN] {
        input.extend_from_slice(&text_of(rt.alloc(), sheet)?)?;
    }
    let told = check_sheets(rt.alloc(), input)?;
    let lines = joined(rt.alloc(), &[ONE_LEFT, NONE_LEFT, NONE_LEFT, ONE_LEFT])?;
    assert_told(&rt, &told, Status::Done, &lines);
    Ok(())
}

#[test]
fn a_line_of_a_sheet_has_at_most_131072_bytes(rt: HostRuntime) -> Result<(), Fail> {
    let told = check_sheets(rt.alloc(), vec![in rt.alloc(); b'a'; 131_073]?)?;
    assert_told(&rt, &told, Status::No, b"no 1 TooLong\n");
    Ok(())
}
