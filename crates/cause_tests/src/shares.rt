// The lines `share` and `spare` of a loose cause: their ranges at both ends and one past, and each order of two faults.
use crate::judged::{Line, judges_lines};
use cert_checker::Reason;
use crew_fixtures::dossiers::TWO_LEVELS;
use std::test::Fail;

/// A line `share` where there are two columns, and four parts make a whole.
const SHARE: &[Line] = &[
    (b"share 0 1", None),
    (b"share 1 1", None),
    (b"share 0 4", None),
    (b"share 2 1", Some(Reason::Number)),
    (b"share 0 0", Some(Reason::Number)),
    (b"share 0 5", Some(Reason::Number)),
    (b"share -1 1", Some(Reason::Number)),
    (b"share -0 1", Some(Reason::Number)),
    (b"share 00 1", Some(Reason::Number)),
    (b"share 0 01", Some(Reason::Number)),
    (b"share 0 +1", Some(Reason::Number)),
    (b"share  1", Some(Reason::Number)),
    (b"share 0 ", Some(Reason::Number)),
    (b"share 0 1\r", Some(Reason::Number)),
    (b"", Some(Reason::Shape)),
    (b"share", Some(Reason::Shape)),
    (b"share 0", Some(Reason::Shape)),
    (b"share 0 1 1", Some(Reason::Shape)),
    (b"share 0 1 ", Some(Reason::Shape)),
    (b"shares 0 1", Some(Reason::Shape)),
    (b"share\t0 1", Some(Reason::Shape)),
    (b"spare 0 0", Some(Reason::Shape)),
    (b"why none", Some(Reason::Shape)),
    (b"leaf bare", Some(Reason::Shape)),
    (b"share 2", Some(Reason::Shape)),
    (b"share 2 0 1", Some(Reason::Shape)),
];

/// The same behind the share of the first column, where one more is to come.
const SECOND: &[Line] = &[
    (b"share 1 1", None),
    (b"share 0 1", Some(Reason::Cause)),
    (b"share 2 1", Some(Reason::Number)),
    (b"share 0 5", Some(Reason::Number)),
    (b"share 0", Some(Reason::Shape)),
    (b"spare 0 0", Some(Reason::Shape)),
];

/// The same behind the share of the last column.
const THIRD: &[Line] = &[
    (b"share 0 1", Some(Reason::Cause)),
    (b"share 1 1", Some(Reason::Cause)),
    (b"share 2 1", Some(Reason::Number)),
    (b"share 1 0", Some(Reason::Number)),
    (b"share 1", Some(Reason::Shape)),
];

/// Where the first task is forbidden to the team, so that the first column is not legal.
const FORBIDDEN: &[Line] = &[
    (b"share 1 1", None),
    (b"share 0 1", Some(Reason::Cause)),
    (b"share 0 0", Some(Reason::Number)),
    (b"share 0", Some(Reason::Shape)),
];

/// A line `spare` behind a whole of the first column: the first task is done, and the second is left.
const SPARE: &[Line] = &[
    (b"spare 0 4", None),
    (b"spare 0 3", Some(Reason::Cause)),
    (b"spare 1 4", Some(Reason::Cause)),
    (b"spare 4 4", Some(Reason::Cause)),
    (b"spare 0 0", Some(Reason::Cause)),
    (b"spare 0 5", Some(Reason::Number)),
    (b"spare 5 4", Some(Reason::Number)),
    (b"spare -0 4", Some(Reason::Number)),
    (b"spare 00 4", Some(Reason::Number)),
    (b"spare 0 +4", Some(Reason::Number)),
    (b"spare  4", Some(Reason::Number)),
    (b"spare 0 ", Some(Reason::Number)),
    (b"spare 0 4\r", Some(Reason::Number)),
    (b"", Some(Reason::Shape)),
    (b"spare", Some(Reason::Shape)),
    (b"spare 0", Some(Reason::Shape)),
    (b"spare 0 4 0", Some(Reason::Shape)),
    (b"spare 0 4 ", Some(Reason::Shape)),
    (b"spare 0  4", Some(Reason::Shape)),
    (b"spares 0 4", Some(Reason::Shape)),
    (b"spare\t0 4", Some(Reason::Shape)),
    (b"share 1 1", Some(Reason::Shape)),
    (b"why none", Some(Reason::Shape)),
    (b"leaf bare", Some(Reason::Shape)),
    (b"spare 5", Some(Reason::Shape)),
    (b"spare 5 0", Some(Reason::Number)),
];

/// The greatest number of parts that make a whole.
const GREATEST_SHARE: &[Line] = &[
    (b"share 0 1", None),
    (b"share 0 170141183460469231731687303715884105727", None),
    (
        b"share 0 170141183460469231731687303715884105728",
        Some(Reason::Number),
    ),
];

/// The same of what is left unassigned. One part in 2^127 that is done twice is too little to count.
const GREATEST_SPARE: &[Line] = &[
    (b"spare 0 170141183460469231731687303715884105727", None),
    (
        b"spare 0 170141183460469231731687303715884105728",
        Some(Reason::Number),
    ),
    (b"spare 1 170141183460469231731687303715884105727", None),
    (b"spare 0 1", Some(Reason::Cause)),
];

#[test]
fn shares_have_their_ranges(rt: HostRuntime) -> Result<(), Fail> {
    let root = &TWO_LEVELS[..17];
    judges_lines(&rt, root, &[b"why loose 2 4 2"], SHARE)?;
    judges_lines(&rt, root, &[b"why loose 2 4 9223372036854775807"], SHARE)?;
    judges_lines(&rt, root, &[b"why loose 2 4 2", b"share 0 1"], SECOND)?;
    judges_lines(&rt, root, &[b"why loose 2 4 2", b"share 1 1"], THIRD)?;
    judges_lines(
        &rt,
        root,
        &[b"why loose 2 170141183460469231731687303715884105727 1"],
        GREATEST_SHARE,
    )
}

#[test]
fn a_share_is_one_of_a_legal_route(rt: HostRuntime) -> Result<(), Fail> {
    judges_lines(&rt, &TWO_LEVELS[..19], &[b"why loose 2 4 1"], FORBIDDEN)
}

#[test]
fn spares_have_their_ranges(rt: HostRuntime) -> Result<(), Fail> {
    let root = &TWO_LEVELS[..17];
    judges_lines(&rt, root, &[b"why loose 2 4 1", b"share 0 4"], SPARE)?;
    let all: [&[u8]; 2] = [
        b"why loose 2 170141183460469231731687303715884105727 1",
        b"share 0 170141183460469231731687303715884105727",
    ];
    judges_lines(&rt, root, &all, GREATEST_SPARE)
}
