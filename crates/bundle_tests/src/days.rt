// Days by the lines of their dossiers, and dossiers of their parts.
use crew_fixtures::dossiers::Lines;
use crew_fixtures::{joined, text_of};
use std::alloc::{AllocError, Global};

/// The first round of the day that the project's first pages plan.
pub const MORNING: Lines = &[
    b"crew dossier 2",
    b"size 3 5 3 200",
    b"place BASE",
    b"place A12",
    b"place B07",
    b"travel 0 12 12",
    b"travel 12 0 12",
    b"travel 12 12 0",
    b"team RAMP1 0 300 780 0 2",
    b"team RAMP2 0 300 780 0 2",
    b"team CLEAN1 0 360 840 1",
    b"task LH123/unload 1 370 380 35 2 0",
    b"task LH123/clean 1 390 410 20 1 1",
    b"task BA845/unload 2 480 495 40 2 0",
    b"task BA845/clean 2 500 530 25 1 1",
    b"task AF12/unload 1 545 555 30 1 0",
    b"frozen 0",
    b"pool 0 0",
    b"plan 0 0",
    b"do 0 370 0 1",
    b"do 1 390 2",
    b"do 2 480 0 1",
    b"do 3 500 2",
    b"do 4 545 1",
    b"tree 0 0 1 0",
    b"leaf bare",
    b"end",
];

/// Its second round: two jobs are frozen, and a task is left unassigned.
pub const LATER: Lines = &[
    b"crew dossier 2",
    b"size 3 5 3 200",
    b"place BASE",
    b"place A12",
    b"place B07",
    b"travel 0 12 12",
    b"travel 12 0 12",
    b"travel 12 12 0",
    b"team RAMP1 0 300 780 0 2",
    b"team RAMP2 0 300 780 0 2",
    b"team CLEAN1 0 360 840 1",
    b"task LH123/unload 1 370 380 35 2 0",
    b"task LH123/clean 1 390 410 20 1 1",
    b"task BA845/unload 2 525 540 40 2 0",
    b"task BA845/clean 2 545 575 25 1 1",
    b"task AF12/unload 1 545 555 30 1 0",
    b"frozen 2",
    b"keep 0 370 0 1",
    b"keep 1 390 2",
    b"pool 0 0",
    b"plan 1 1",
    b"do 0 370 0 1",
    b"do 1 390 2",
    b"do 3 545 2",
    b"do 4 545 1",
    b"tree 0 1 0 0",
    b"leaf closed",
    b"price 90000000 45000000 90000000 45000000 45000000",
    b"extra 0 45000000 45000000",
    b"extra 1 45000000",
    b"worth 225000000",
    b"steps 0 370 225000000",
    b"steps 2 525 90000000",
    b"steps 4 545 45000000",
    b"worth 225000000",
    b"steps 0 370 225000000",
    b"steps 2 525 90000000",
    b"steps 4 545 45000000",
    b"worth 135000000",
    b"steps 1 390 135000000",
    b"steps 3 545 45000000",
    b"end",
];

/// A day without a task, as `parts` writes its one part too.
pub const NO_TASK: Lines = &[
    b"crew dossier 2",
    b"size 1 0 1 0",
    b"place BASE",
    b"travel 0",
    b"team T1 0 360 840",
    b"frozen 0",
    b"pool 0 0",
    b"plan 0 0",
    b"tree 0 0 1 0",
    b"leaf bare",
    b"end",
];

/// The part of a day of one task.
pub const ONE_PART: Lines = &[
    b"crew dossier 2",
    b"size 1 1 2 0",
    b"place BASE",
    b"place G1",
    b"travel 0 10",
    b"travel 10 0",
    b"team T1 0 360 840",
    b"task A 1 420 450 30 1",
    b"frozen 0",
    b"pool 0 0",
    b"plan 0 0",
    b"do 0 420 0",
    b"tree 0 0 1 0",
    b"leaf bare",
    b"end",
];

/// From the base to the second gate by way of the first one is shorter.
pub const SLOW_ROAD: Lines = &[
    b"crew dossier 2",
    b"size 1 1 3 0",
    b"place BASE",
    b"place G1",
    b"place G2",
    b"travel 0 10 30",
    b"travel 10 0 10",
    b"travel 30 10 0",
    b"team T1 0 360 840",
    b"task A 2 420 450 30 1",
    b"frozen 0",
    b"pool 0 0",
    b"plan 0 0",
    b"do 0 420 0",
    b"tree 0 0 1 0",
    b"leaf bare",
    b"end",
];

/// Its part, with the shorter times.
pub const BY_THE_GATE: Lines = &[
    b"crew dossier 2",
    b"size 1 1 3 0",
    b"place BASE",
    b"place G1",
    b"place G2",
    b"travel 0 10 20",
    b"travel 10 0 10",
    b"travel 20 10 0",
    b"team T1 0 360 840",
    b"task A 2 420 450 30 1",
    b"frozen 0",
    b"pool 0 0",
    b"plan 0 0",
    b"do 0 420 0",
    b"tree 0 0 1 0",
    b"leaf bare",
    b"end",
];

/// Two teams, and two joint tasks hours apart, each with a frozen job.
pub const TWO_FROZEN: Lines = &[
    b"crew dossier 2",
    b"size 2 2 2 0",
    b"place BASE",
    b"place G1",
    b"travel 0 10",
    b"travel 10 0",
    b"team T1 0 360 840",
    b"team T2 0 360 840",
    b"task A 1 420 420 30 2",
    b"task B 1 600 600 30 2",
    b"frozen 2",
    b"keep 0 420 0 1",
    b"keep 1 600 0 1",
    b"pool 0 0",
    b"plan 0 0",
    b"do 0 420 0 1",
    b"do 1 600 0 1",
    b"tree 0 0 1 0",
    b"leaf bare",
    b"end",
];

/// Its part before the cut behind the first task.
pub const FIRST_FROZEN: Lines = &[
    b"crew dossier 2",
    b"size 2 1 2 0",
    b"place BASE",
    b"place G1",
    b"travel 0 10",
    b"travel 10 0",
    b"team T1 0 360 840",
    b"team T2 0 360 840",
    b"task A 1 420 420 30 2",
    b"frozen 1",
    b"keep 0 420 0 1",
    b"pool 0 0",
    b"plan 0 0",
    b"do 0 420 0 1",
    b"tree 0 0 1 0",
    b"leaf bare",
    b"end",
];

/// Its part between the two cuts.
pub const SECOND_FROZEN: Lines = &[
    b"crew dossier 2",
    b"size 2 1 2 0",
    b"place BASE",
    b"place G1",
    b"travel 0 10",
    b"travel 10 0",
    b"team T1 0 360 840",
    b"team T2 0 360 840",
    b"task B 1 600 600 30 2",
    b"frozen 1",
    b"keep 0 600 0 1",
    b"pool 0 0",
    b"plan 0 0",
    b"do 0 600 0 1",
    b"tree 0 0 1 0",
    b"leaf bare",
    b"end",
];

/// Its part behind the cut behind the second task.
pub const NOTHING_LATE: Lines = &[
    b"crew dossier 2",
    b"size 2 0 2 0",
    b"place BASE",
    b"place G1",
    b"travel 0 10",
    b"travel 10 0",
    b"team T1 0 360 840",
    b"team T2 0 360 840",
    b"frozen 0",
    b"pool 0 0",
    b"plan 0 0",
    b"tree 0 0 1 0",
    b"leaf bare",
    b"end",
];

/// Two teams that can do one of two joint tasks in the morning, and one of two hours later; the dossier shows no bound.
pub const TWO_CROWDS: Lines = &[
    b"crew dossier 2",
    b"size 2 4 2 0",
    b"place BASE",
    b"place G1",
    b"travel 0 10",
    b"travel 10 0",
    b"team T1 0 360 840",
    b"team T2 0 360 840",
    b"task A 1 420 420 30 2",
    b"task C 1 420 420 30 2",
    b"task B 1 600 600 30 2",
    b"task D 1 600 600 30 2",
    b"frozen 0",
    b"pool 0 0",
    b"plan 2 0",
    b"do 0 420 0 1",
    b"do 2 600 0 1",
    b"tree 0 0 1 0",
    b"leaf bare",
    b"end",
];

/// A day of two tasks, of which the team can do one; its dossier shows no bound.
pub const NO_BOUND: Lines = &[
    b"crew dossier 1",
    b"size 1 2 2 0",
    b"place BASE",
    b"place G1",
    b"travel 0 10",
    b"travel 10 0",
    b"team T1 0 360 840",
    b"task A 1 420 420 30 1",
    b"task B 1 420 420 30 1",
    b"pool 0 0",
    b"plan 1 0",
    b"do 0 420 0",
    b"tree 0 0 1 0",
    b"leaf bare",
    b"end",
];

/// The text of a bundle: the day's dossier, the line `parts`, and those of parts.
pub fn bundle(
    alloc: Global,
    day: Lines,
    count: &[u8],
    parts: &[Lines],
) -> Result<Vec<u8>, AllocError> {
    let mut text = joined(
        alloc,
        &[b"crew parts 1\n", &text_of(alloc, day)?, count, b"\n"],
    )?;
    for part in parts {
        text.extend_from_slice(&text_of(alloc, part)?)?;
    }
    Ok(text)
}

/// The texts of two dossiers, one after another.
pub fn both(alloc: Global, first: Lines, second: Lines) -> Result<Vec<u8>, AllocError> {
    joined(alloc, &[&text_of(alloc, first)?, &text_of(alloc, second)?])
}
