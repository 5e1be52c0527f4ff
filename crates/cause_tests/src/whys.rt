// The line `why` of a split: each of its four kinds, with its ranges at both ends and one past, and each order of two faults.
use crate::judged::{Line, judges_lines};
use cert_checker::Reason;
use crew_fixtures::dossiers::TWO_LEVELS;
use std::test::Fail;

/// A line `why none`, and lines that are none of the four kinds.
const NONE: &[Line] = &[
    (b"why none", None),
    (b"", Some(Reason::Shape)),
    (b"why", Some(Reason::Shape)),
    (b"why ", Some(Reason::Shape)),
    (b"why none 0", Some(Reason::Shape)),
    (b"why none ", Some(Reason::Shape)),
    (b"why  none", Some(Reason::Shape)),
    (b" why none", Some(Reason::Shape)),
    (b"why\tnone", Some(Reason::Shape)),
    (b"why none\r", Some(Reason::Shape)),
    (b"Why none", Some(Reason::Shape)),
    (b"why None", Some(Reason::Shape)),
    (b"whys none", Some(Reason::Shape)),
    (b"why not", Some(Reason::Shape)),
    (b"why loosely 1 1 0", Some(Reason::Shape)),
    (b"leaf bare", Some(Reason::Shape)),
    (b"pair 0 1", Some(Reason::Shape)),
    (b"window 0 420", Some(Reason::Shape)),
    (b"share 0 1", Some(Reason::Shape)),
    (b"spare 0 0", Some(Reason::Shape)),
    (b"end", Some(Reason::Shape)),
];

/// A line `why loose` of a node with two tasks, where the plan leaves one unassigned.
const LOOSE: &[Line] = &[
    (b"why loose 1 1 0", None),
    (b"why loose 2 1 0", None),
    (b"why loose 0 1 0", Some(Reason::Number)),
    (b"why loose 3 1 0", Some(Reason::Number)),
    (b"why loose 1 0 0", Some(Reason::Number)),
    (
        b"why loose 1 170141183460469231731687303715884105727 0",
        None,
    ),
    (
        b"why loose 1 170141183460469231731687303715884105728 0",
        Some(Reason::Number),
    ),
    (b"why loose 1 1 9223372036854775807", None),
    (b"why loose 1 1 9223372036854775808", Some(Reason::Number)),
    (b"why loose 01 1 0", Some(Reason::Number)),
    (b"why loose 1 01 0", Some(Reason::Number)),
    (b"why loose 1 1 00", Some(Reason::Number)),
    (b"why loose +1 1 0", Some(Reason::Number)),
    (b"why loose -1 1 0", Some(Reason::Number)),
    (b"why loose 1 -1 0", Some(Reason::Number)),
    (b"why loose 1 1 -0", Some(Reason::Number)),
    (b"why loose  1 0", Some(Reason::Number)),
    (b"why loose 1 1 ", Some(Reason::Number)),
    (b"why loose 1 1 0\r", Some(Reason::Number)),
    (b"why loose", Some(Reason::Shape)),
    (b"why loose 1 1", Some(Reason::Shape)),
    (b"why loose 1 1 0 0", Some(Reason::Shape)),
    (b"why loose 1 1 0 ", Some(Reason::Shape)),
    (b"why loose\t1 1 0", Some(Reason::Shape)),
    (b"whys loose 1 1 0", Some(Reason::Shape)),
    (b"why loose 0 1", Some(Reason::Shape)),
    (b"why loose 0 0 -0 0", Some(Reason::Shape)),
];

/// A line `why overflow` there.
const OVERFLOW: &[Line] = &[
    (
        b"why overflow 1 add 170141183460469231731687303715884105727 1",
        None,
    ),
    (
        b"why overflow 2 add 170141183460469231731687303715884105727 1",
        None,
    ),
    (
        b"why overflow 0 add 170141183460469231731687303715884105727 1",
        Some(Reason::Number),
    ),
    (
        b"why overflow 3 add 170141183460469231731687303715884105727 1",
        Some(Reason::Number),
    ),
    (
        b"why overflow 1 add 170141183460469231731687303715884105728 1",
        Some(Reason::Number),
    ),
    (
        b"why overflow 1 add -170141183460469231731687303715884105728 -1",
        None,
    ),
    (
        b"why overflow 1 add -170141183460469231731687303715884105729 -1",
        Some(Reason::Number),
    ),
    (
        b"why overflow 1 add 1 170141183460469231731687303715884105727",
        None,
    ),
    (
        b"why overflow 1 add 1 170141183460469231731687303715884105728",
        Some(Reason::Number),
    ),
    (
        b"why overflow 1 add -1 -170141183460469231731687303715884105728",
        None,
    ),
    (
        b"why overflow 1 add -1 -170141183460469231731687303715884105729",
        Some(Reason::Number),
    ),
    (
        b"why overflow 01 add 170141183460469231731687303715884105727 1",
        Some(Reason::Number),
    ),
    (
        b"why overflow 1 add 170141183460469231731687303715884105727 01",
        Some(Reason::Number),
    ),
    (
        b"why overflow 1 add 170141183460469231731687303715884105727 +1",
        Some(Reason::Number),
    ),
    (b"why overflow 1 add -0 1", Some(Reason::Number)),
    (b"why overflow 1 add 1 -0", Some(Reason::Number)),
    (
        b"why overflow  add 170141183460469231731687303715884105727 1",
        Some(Reason::Number),
    ),
    (
        b"why overflow 1 add 170141183460469231731687303715884105727 ",
        Some(Reason::Number),
    ),
    (
        b"why overflow 1 add 170141183460469231731687303715884105727 1\r",
        Some(Reason::Number),
    ),
    (b"why overflow", Some(Reason::Shape)),
    (b"why overflow 1 add 1", Some(Reason::Shape)),
    (b"why overflow 1 add 1 1 1", Some(Reason::Shape)),
    (b"why overflow 1 add 1 1 ", Some(Reason::Shape)),
    (b"why overflow 1 div 1 1", Some(Reason::Shape)),
    (b"why overflow 1 Add 1 1", Some(Reason::Shape)),
    (b"why overflow 1  1 1", Some(Reason::Shape)),
    (b"why overflow 1 adds 1 1", Some(Reason::Shape)),
    (b"why overflow\t1 add 1 1", Some(Reason::Shape)),
    (b"why overflow 0 div 1 1", Some(Reason::Shape)),
    (b"why overflow 1 div -0 1", Some(Reason::Shape)),
    (b"why overflow 0 add 1 1", Some(Reason::Number)),
    (b"why overflow 1 add 1 01", Some(Reason::Number)),
];

/// Numbers that fit, and those just past them.
const FITS: &[Line] = &[
    (b"why overflow 1 add 1 1", Some(Reason::Cause)),
    (
        b"why overflow 1 add 170141183460469231731687303715884105727 0",
        Some(Reason::Cause),
    ),
    (
        b"why overflow 1 add -170141183460469231731687303715884105728 0",
        Some(Reason::Cause),
    ),
    (
        b"why overflow 1 add 170141183460469231731687303715884105727 -170141183460469231731687303715884105728",
        Some(Reason::Cause),
    ),
    (
        b"why overflow 1 sub 170141183460469231731687303715884105727 0",
        Some(Reason::Cause),
    ),
    (
        b"why overflow 1 sub 170141183460469231731687303715884105727 -1",
        None,
    ),
    (
        b"why overflow 1 sub -170141183460469231731687303715884105728 0",
        Some(Reason::Cause),
    ),
    (
        b"why overflow 1 sub -170141183460469231731687303715884105728 1",
        None,
    ),
    (
        b"why overflow 1 sub -1 -170141183460469231731687303715884105728",
        Some(Reason::Cause),
    ),
    (
        b"why overflow 1 sub 0 -170141183460469231731687303715884105728",
        None,
    ),
    (
        b"why overflow 1 mul -170141183460469231731687303715884105728 1",
        Some(Reason::Cause),
    ),
    (
        b"why overflow 1 mul -170141183460469231731687303715884105728 -1",
        None,
    ),
    (
        b"why overflow 1 mul 170141183460469231731687303715884105727 -1",
        Some(Reason::Cause),
    ),
    (
        b"why overflow 1 mul 0 -170141183460469231731687303715884105728",
        Some(Reason::Cause),
    ),
    (
        b"why overflow 1 mul 13043817825332782212 13043817825332782212",
        Some(Reason::Cause),
    ),
    (
        b"why overflow 1 mul 13043817825332782213 13043817825332782213",
        None,
    ),
    (
        b"why overflow 1 mul 9223372036854775808 18446744073709551616",
        None,
    ),
    (
        b"why overflow 1 mul -9223372036854775808 18446744073709551616",
        Some(Reason::Cause),
    ),
];

/// A line `why spent` there.
const SPENT: &[Line] = &[
    (b"why spent 1", None),
    (b"why spent 2", None),
    (b"why spent 0", Some(Reason::Number)),
    (b"why spent 3", Some(Reason::Number)),
    (b"why spent 01", Some(Reason::Number)),
    (b"why spent +1", Some(Reason::Number)),
    (b"why spent -1", Some(Reason::Number)),
    (b"why spent ", Some(Reason::Number)),
    (b"why spent 1\r", Some(Reason::Number)),
    (b"why spent", Some(Reason::Shape)),
    (b"why spent 1 1", Some(Reason::Shape)),
    (b"why spent 1 ", Some(Reason::Shape)),
    (b"why spent  1", Some(Reason::Shape)),
    (b"why spent\t1", Some(Reason::Shape)),
    (b"why spent 0 0", Some(Reason::Shape)),
];

/// Where the plan leaves both tasks unassigned, no cause tells of fewer.
const BELOW_THE_PLAN: &[Line] = &[
    (b"why none", None),
    (b"why loose 1 1 0", Some(Reason::Cause)),
    (b"why loose 2 1 0", None),
    (b"why loose 1 0 0", Some(Reason::Number)),
    (b"why loose 1 1", Some(Reason::Shape)),
    (
        b"why overflow 1 add 170141183460469231731687303715884105727 1",
        Some(Reason::Cause),
    ),
    (
        b"why overflow 2 add 170141183460469231731687303715884105727 1",
        None,
    ),
    (b"why overflow 1 add 1 1", Some(Reason::Cause)),
    (
        b"why overflow 1 add 170141183460469231731687303715884105728 1",
        Some(Reason::Number),
    ),
    (
        b"why overflow 1 div 170141183460469231731687303715884105727 1",
        Some(Reason::Shape),
    ),
    (b"why spent 1", Some(Reason::Cause)),
    (b"why spent 2", None),
    (b"why spent 0", Some(Reason::Number)),
    (b"why spent 1 1", Some(Reason::Shape)),
];

#[test]
fn each_kind_has_its_ranges(rt: HostRuntime) -> Result<(), Fail> {
    for table in [NONE, LOOSE, OVERFLOW, FITS, SPENT] {
        judges_lines(&rt, &TWO_LEVELS[..17], &[], table)?;
    }
    Ok(())
}

#[test]
fn no_cause_is_below_the_plan(rt: HostRuntime) -> Result<(), Fail> {
    let lead: [&[u8]; 3] = [b"plan 2 0", b"tree 3 0 4 2", b"pair 0 0"];
    judges_lines(&rt, &TWO_LEVELS[..13], &lead, BELOW_THE_PLAN)
}
