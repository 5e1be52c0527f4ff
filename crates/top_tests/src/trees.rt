// Dossiers with pools, with leaves that have prices, and with splits: good ones, and the first rule that others break.
use crate::answers::{assert_told, check, status_of};
use crew_cli::run::Status;
use crew_fixtures::dossiers::{
    LACKS_SKILL, Lines, ONE_TASK, WITH_OPEN_LEAF, WITH_PAIR, WITH_POOL, WITH_WINDOW,
};
use crew_fixtures::{joined, text_of, with_line};
use std::alloc::Global;
use std::test::Fail;

const YES_CLOSED: &[u8] = b"yes unassigned 1 bound 1 splits 0 closed 1 open 0 unshown 0\n";

const YES_OPEN: &[u8] = b"yes unassigned 1 bound 0 splits 0 closed 0 open 1 unshown 0\n";

const YES_SPLIT: &[u8] = b"yes unassigned 1 bound 1 splits 1 closed 2 open 0 unshown 1\n";

/// Dossiers one after another, and what is written of each. Where the one before has as many teams and the same windows,
/// as with the second and the fourth, its tree's room serves the next tree; else there is new room.
const ONE_AFTER_ANOTHER: &[(Lines, &[u8])] = &[
    (WITH_POOL, YES_CLOSED),
    (WITH_POOL, YES_CLOSED),
    (WITH_OPEN_LEAF, YES_OPEN),
    (WITH_WINDOW, YES_SPLIT),
    (LACKS_SKILL, YES_CLOSED),
    (WITH_PAIR, YES_SPLIT),
    (WITH_POOL, YES_CLOSED),
];

/// A dossier, the number of a line of it, another line in its place, and what is written then.
type Case = (Lines, usize, &'static [u8], &'static [u8]);

const GOOD_ONES: &[Case] = &[
    (WITH_POOL, 1, b"crew dossier 1", YES_CLOSED),
    (LACKS_SKILL, 1, b"crew dossier 1", YES_CLOSED),
    (WITH_OPEN_LEAF, 1, b"crew dossier 1", YES_OPEN),
    (WITH_WINDOW, 1, b"crew dossier 1", YES_SPLIT),
    (WITH_PAIR, 1, b"crew dossier 1", YES_SPLIT),
];

const POOLS: &[Case] = &[
    (WITH_POOL, 12, b"route 0 0 420", b"no 12 Pool\n"),
    (WITH_POOL, 12, b"route 0 1 420 0 420", b"no 12 Pool\n"),
    (WITH_POOL, 10, b"pool 3 2", b"no 10 Pool\n"),
    (WITH_POOL, 10, b"pool 2 2", YES_CLOSED),
    (WITH_POOL, 12, b"route 0 1 421", b"no 12 Pool\n"),
    (WITH_POOL, 12, b"route 0", b"no 12 Shape\n"),
    (WITH_POOL, 12, b"route 0 1", b"no 12 Shape\n"),
    (WITH_POOL, 12, b"route 1 1 420", b"no 12 Number\n"),
    (WITH_POOL, 12, b"route 0 2 420", b"no 12 Number\n"),
    (WITH_POOL, 12, b"route 0 1 2881", b"no 12 Number\n"),
    (WITH_POOL, 10, b"pool 0 1", b"no 12 Shape\n"),
    (ONE_TASK, 9, b"pool 0 9223372036854775807", b"no 10 Shape\n"),
];

const LEAVES: &[Case] = &[
    (WITH_POOL, 20, b"phi 1 839999999", b"no 20 Potential 0 1\n"),
    (WITH_POOL, 19, b"phi 0 839999999", b"no 20 Potential 0 0\n"),
    (WITH_POOL, 13, b"plan 1 2", b"no 20 Bound\n"),
    (WITH_POOL, 13, b"plan 1 0", YES_CLOSED_LOW),
    (
        WITH_POOL,
        17,
        b"price 840000000000001 840000000",
        b"no 17 Number\n",
    ),
    (
        WITH_POOL,
        18,
        b"worth 9223372036854775808",
        b"no 18 Number\n",
    ),
    (
        WITH_POOL,
        20,
        b"phi 1 9223372036854775807",
        b"no 20 Worth 0\n",
    ),
    (WITH_POOL, 18, b"worth 839999999", b"no 20 Worth 0\n"),
    (WITH_POOL, 20, b"phi 1", b"no 20 Shape\n"),
    (WITH_POOL, 20, b"phi 0 840000000", b"no 20 Shape\n"),
    (WITH_OPEN_LEAF, 11, b"plan 1 1", b"no 18 Bound\n"),
    (
        WITH_OPEN_LEAF,
        12,
        b"tree 100000 0 100001 100000",
        b"no 12 Budget\n",
    ),
];

/// The yes line where the plan's bound is told as 0.
const YES_CLOSED_LOW: &[u8] = b"yes unassigned 1 bound 0 splits 0 closed 1 open 0 unshown 0\n";

const TREES: &[Case] = &[
    (WITH_WINDOW, 15, b"window 0 480", b"no 15 Cut\n"),
    (WITH_WINDOW, 15, b"window 0 419", b"no 15 Cut\n"),
    (WITH_WINDOW, 15, b"window 0 479", b"no 21 Shape\n"),
    (WITH_WINDOW, 25, b"end", b"no 25 Shape\n"),
    (WITH_WINDOW, 14, b"tree 1 2 0 0", b"no 15 Count\n"),
    (WITH_WINDOW, 14, b"tree 1 2 0 2", b"no 26 Count\n"),
    (WITH_WINDOW, 14, b"tree 2 1 2 1", b"no 21 Count\n"),
    (WITH_WINDOW, 16, b"window 0 430", b"no 16 Count\n"),
    (WITH_WINDOW, 16, b"leaf bare", b"no 16 Count\n"),
    (WITH_PAIR, 2, b"size 1 2 2 2", b"no 15 Budget\n"),
    (
        WITH_PAIR,
        22,
        b"price 0 840000001",
        b"no 26 Potential 0 1\n",
    ),
    (
        WITH_PAIR,
        23,
        b"extra 0 840000001",
        b"no 26 Potential 0 0\n",
    ),
    (WITH_PAIR, 23, b"extra 1 840000000", b"no 23 Shape\n"),
    (
        WITH_PAIR,
        18,
        b"price 0 840000000\nworth 840000000\nphi 1 840000000",
        b"no 20 Bound\n",
    ),
];

#[test]
fn pools_leaves_and_trees(rt: HostRuntime) -> Result<(), Fail> {
    for table in [GOOD_ONES, POOLS, LEAVES, TREES] {
        for (text, number, line, expected) in table {
            let input = with_line(rt.alloc(), text, *number, line)?;
            let told = check(rt.alloc(), input)?;
            assert_told(&rt, &told, status_of(expected), expected);
        }
    }
    Ok(())
}

#[test]
fn a_dossier_that_begins_behind_a_good_one(rt: HostRuntime) -> Result<(), Fail> {
    let lines = b"worth 840000001\nphi 0 840000001\nphi 1 840000000\nend\ncrew dossier 1";
    let told = check(rt.alloc(), with_line(rt.alloc(), WITH_POOL, 18, lines)?)?;
    let wanted = joined(rt.alloc(), &[YES_CLOSED, b"no 23 Shape\n"])?;
    assert_told(&rt, &told, Status::No, &wanted);
    Ok(())
}

/// What is written for the first bytes of a dossier or a sheet: that the line behind its whole lines is due.
pub fn end_line(alloc: Global, front: &[u8]) -> Result<Vec<u8>, Fail> {
    let whole = front.iter().filter(|b| **b == b'\n').count();
    let text = format!(in alloc; "no {} End\n", whole.saturating_add(1))?;
    Ok(text.into_bytes())
}

#[test]
fn each_front_of_a_dossier_is_too_short(rt: HostRuntime) -> Result<(), Fail> {
    let text = text_of(rt.alloc(), WITH_POOL)?;
    for n in 0..text.len() {
        let front = &text[..n];
        let told = check(rt.alloc(), front.to_vec(rt.alloc())?)?;
        assert_told(&rt, &told, Status::No, &end_line(rt.alloc(), front)?);
    }
    Ok(())
}

#[test]
fn numbers_of_one_dossier_are_not_those_of_the_next(rt: HostRuntime) -> Result<(), Fail> {
    let mut input = Vec::new(rt.alloc());
    let mut lines = Vec::new(rt.alloc());
    for (dossier, line) in ONE_AFTER_ANOTHER {
        input.extend_from_slice(&text_of(rt.alloc(), dossier)?)?;
        lines.extend_from_slice(line)?;
    }
    let told = check(rt.alloc(), input)?;
    assert_told(&rt, &told, Status::Done, &lines);
    Ok(())
}

#[test]
fn a_low_potential_in_the_second_dossier(rt: HostRuntime) -> Result<(), Fail> {
    let good = text_of(rt.alloc(), WITH_POOL)?;
    let low = with_line(rt.alloc(), WITH_POOL, 20, b"phi 1 839999999")?;
    let told = check(rt.alloc(), joined(rt.alloc(), &[&good, &low])?)?;
    let lines = joined(rt.alloc(), &[YES_CLOSED, b"no 41 Potential 0 1\n"])?;
    assert_told(&rt, &told, Status::No, &lines);
    Ok(())
}
