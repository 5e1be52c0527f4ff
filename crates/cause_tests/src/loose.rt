// Which shares of columns are a loose choice: those that leave at most now - 1 tasks and a thousandth of one unassigned, where
// each visit that is missing or too many counts as a million tasks. All is exact to one part.
use crate::judged::{Cause, judges_causes};
use cert_checker::Reason;
use crew_fixtures::dossiers::{TWO_LEVELS, WITH_NO_CAUSE};
use std::test::Fail;

/// A task of two teams, each of which has a column: a thousandth of the task may be left, and not one part more.
const LEFT: &[Cause] = &[
    (
        &[
            b"why loose 1 1000 2",
            b"share 0 999",
            b"share 1 999",
            b"spare 1",
        ],
        None,
    ),
    (
        &[
            b"why loose 1 1000 2",
            b"share 0 998",
            b"share 1 998",
            b"spare 2",
        ],
        Some(Reason::Cause),
    ),
    (
        &[
            b"why loose 1 1000000 2",
            b"share 0 999000",
            b"share 1 999000",
            b"spare 1000",
        ],
        None,
    ),
    (
        &[
            b"why loose 1 1000000 2",
            b"share 0 998999",
            b"share 1 998999",
            b"spare 1001",
        ],
        Some(Reason::Cause),
    ),
    (
        &[
            b"why loose 1 999 2",
            b"share 0 999",
            b"share 1 999",
            b"spare 0",
        ],
        None,
    ),
    (
        &[
            b"why loose 1 999 2",
            b"share 0 998",
            b"share 1 998",
            b"spare 1",
        ],
        Some(Reason::Cause),
    ),
    (
        &[
            b"why loose 1 170141183460469231731687303715884105727 2",
            b"share 0 169971042277008762499955616412168221622",
            b"share 1 169971042277008762499955616412168221622",
            b"spare 170141183460469231731687303715884105",
        ],
        None,
    ),
    (
        &[
            b"why loose 1 170141183460469231731687303715884105727 2",
            b"share 0 169971042277008762499955616412168221621",
            b"share 1 169971042277008762499955616412168221621",
            b"spare 170141183460469231731687303715884106",
        ],
        Some(Reason::Cause),
    ),
];

/// A billionth of a visit may be missing, or be one too many, and not one part more.
const MISSED: &[Cause] = &[
    (
        &[
            b"why loose 1 1000000000 2",
            b"share 0 1000000000",
            b"share 1 999999999",
            b"spare 0",
        ],
        None,
    ),
    (
        &[
            b"why loose 1 1000000000 2",
            b"share 0 999999999",
            b"share 1 999999999",
            b"spare 0",
        ],
        Some(Reason::Cause),
    ),
    (
        &[
            b"why loose 1 1000000000 2",
            b"share 0 1000000000",
            b"share 1 999999998",
            b"spare 0",
        ],
        Some(Reason::Cause),
    ),
    (
        &[
            b"why loose 1 999999999 2",
            b"share 0 999999999",
            b"share 1 999999998",
            b"spare 0",
        ],
        Some(Reason::Cause),
    ),
    (
        &[
            b"why loose 1 170141183460469231731687303715884105727 2",
            b"share 0 170141183460469231731687303715884105727",
            b"share 1 170141183290328048271218071984196802012",
            b"spare 0",
        ],
        None,
    ),
    (
        &[
            b"why loose 1 170141183460469231731687303715884105727 2",
            b"share 0 170141183460469231731687303715884105727",
            b"share 1 170141183290328048271218071984196802011",
            b"spare 0",
        ],
        Some(Reason::Cause),
    ),
    (
        &[
            b"why loose 1 2000000000 2",
            b"share 0 1999000000",
            b"share 1 1998999999",
            b"spare 1000000",
        ],
        None,
    ),
    (
        &[
            b"why loose 1 2000000000 2",
            b"share 0 1998999999",
            b"share 1 1998999998",
            b"spare 1000001",
        ],
        Some(Reason::Cause),
    ),
    (
        &[
            b"why loose 1 2000000000 2",
            b"share 0 1999000000",
            b"share 1 1999000001",
            b"spare 1000000",
        ],
        None,
    ),
    (
        &[
            b"why loose 1 2000000000 2",
            b"share 0 1999000000",
            b"share 1 1999000002",
            b"spare 1000000",
        ],
        Some(Reason::Cause),
    ),
    (&[b"why loose 1 1 0", b"spare 0"], Some(Reason::Cause)),
    (&[b"why loose 1 1 0", b"spare 1"], Some(Reason::Cause)),
    (
        &[b"why loose 1 1 1", b"share 1 1", b"spare 0"],
        Some(Reason::Cause),
    ),
    (
        &[b"why loose 1 1 2", b"share 0 1", b"share 1 1", b"spare 0"],
        None,
    ),
    (
        &[b"why loose 1 1 2", b"share 0 1", b"share 1 1", b"spare 1"],
        Some(Reason::Cause),
    ),
];

/// Two tasks at one minute, and a team that does the first in part: one task and a thousandth of another are left, and no more.
const MORE: &[Cause] = &[
    (
        &[b"why loose 2 1000 1", b"share 0 999", b"spare 1 1000"],
        None,
    ),
    (
        &[b"why loose 2 1000 1", b"share 0 998", b"spare 2 1000"],
        Some(Reason::Cause),
    ),
    (
        &[
            b"why loose 2 1000000 1",
            b"share 0 999000",
            b"spare 1000 1000000",
        ],
        None,
    ),
    (
        &[
            b"why loose 2 1000000 1",
            b"share 0 998999",
            b"spare 1001 1000000",
        ],
        Some(Reason::Cause),
    ),
    (
        &[
            b"why loose 2 170141183460469231731687303715884105727 1",
            b"share 0 169971042277008762499955616412168221622",
            b"spare 170141183460469231731687303715884105 170141183460469231731687303715884105727",
        ],
        None,
    ),
    (
        &[
            b"why loose 2 170141183460469231731687303715884105727 1",
            b"share 0 169971042277008762499955616412168221621",
            b"spare 170141183460469231731687303715884106 170141183460469231731687303715884105727",
        ],
        Some(Reason::Cause),
    ),
    (
        &[b"why loose 1 1 1", b"share 0 1", b"spare 0 1"],
        Some(Reason::Cause),
    ),
    (&[b"why loose 2 1 0", b"spare 1 1"], Some(Reason::Cause)),
];

/// The columns of a team are taken once in all.
const WHOLES: &[Cause] = &[
    (
        &[
            b"why loose 2 1000 2",
            b"share 0 999",
            b"share 1 1",
            b"spare 1 999",
        ],
        None,
    ),
    (
        &[
            b"why loose 2 1000 2",
            b"share 0 1000",
            b"share 1 1",
            b"spare 0 999",
        ],
        Some(Reason::Cause),
    ),
    (
        &[b"why loose 2 1 2", b"share 0 1", b"share 1 1", b"spare 0 0"],
        Some(Reason::Cause),
    ),
];

/// Where the team is required at the first task, none of that may be left, and a part of the visit that is missing counts twice.
const REQUIRED: &[Cause] = &[
    (&[b"why loose 2 1 1", b"share 0 1", b"spare 0 1"], None),
    (
        &[b"why loose 2 1000 1", b"share 0 999", b"spare 1 1000"],
        Some(Reason::Cause),
    ),
    (
        &[
            b"why loose 2 1000000000 1",
            b"share 0 999999999",
            b"spare 0 1000000000",
        ],
        Some(Reason::Cause),
    ),
    (
        &[
            b"why loose 2 2000000000 1",
            b"share 0 1999999999",
            b"spare 0 2000000000",
        ],
        None,
    ),
    (
        &[b"why loose 2 1 1", b"share 1 1", b"spare 1 0"],
        Some(Reason::Cause),
    ),
];

/// The same where it is not required.
const FREE: &[Cause] = &[
    (
        &[b"why loose 2 1000 1", b"share 0 999", b"spare 1 1000"],
        None,
    ),
    (
        &[
            b"why loose 2 1000000000 1",
            b"share 0 999999999",
            b"spare 0 1000000000",
        ],
        None,
    ),
    (
        &[
            b"why loose 2 1000000000 1",
            b"share 0 999999998",
            b"spare 0 1000000000",
        ],
        Some(Reason::Cause),
    ),
    (&[b"why loose 2 1 1", b"share 1 1", b"spare 1 0"], None),
];

#[test]
fn a_thousandth_of_a_task_may_be_left(rt: HostRuntime) -> Result<(), Fail> {
    let split = &WITH_NO_CAUSE[..16];
    judges_causes(&rt, split, LEFT)?;
    judges_causes(&rt, split, MISSED)?;
    judges_causes(&rt, &TWO_LEVELS[..17], MORE)
}

#[test]
fn a_choice_is_one_of_its_node(rt: HostRuntime) -> Result<(), Fail> {
    judges_causes(&rt, &TWO_LEVELS[..17], WHOLES)?;
    judges_causes(&rt, &TWO_LEVELS[..17], FREE)?;
    judges_causes(&rt, &TWO_LEVELS[..23], REQUIRED)
}
