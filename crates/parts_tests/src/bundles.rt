// Bundles by their lines.
use crew_fixtures::dossiers::Lines;
use crew_fixtures::{joined, text_of};
use std::alloc::{AllocError, Global};

/// Of the day of two tasks, the part that has the first one.
pub const PART_A: Lines = &[
    b"crew dossier 1",
    b"size 2 1 2 1",
    b"place BASE",
    b"place G1",
    b"travel 0 10",
    b"travel 10 0",
    b"team T1 0 360 840 1 3",
    b"team T2 0 360 840",
    b"task A 1 420 450 30 1 1 3",
    b"pool 0 0",
    b"plan 0 0",
    b"do 0 420 0",
    b"tree 0 0 1 0",
    b"leaf bare",
    b"end",
];

/// The part that has the second one.
pub const PART_B: Lines = &[
    b"crew dossier 1",
    b"size 2 1 2 1",
    b"place BASE",
    b"place G1",
    b"travel 0 10",
    b"travel 10 0",
    b"team T1 0 360 840 1 3",
    b"team T2 0 360 840",
    b"task B 1 500 500 30 1",
    b"pool 0 0",
    b"plan 0 0",
    b"do 0 500 1",
    b"tree 0 0 1 0",
    b"leaf bare",
    b"end",
];

/// A day without a task.
pub const NO_TASK: Lines = &[
    b"crew dossier 1",
    b"size 1 0 1 1",
    b"place BASE",
    b"travel 0",
    b"team T1 0 360 840",
    b"pool 0 0",
    b"plan 0 0",
    b"tree 0 0 1 0",
    b"leaf bare",
    b"end",
];

/// A day of two tasks, of which the team can do one; its dossier shows no bound.
pub const NO_BOUND: Lines = &[
    b"crew dossier 1",
    b"size 1 2 2 0",
    b"place BASE",
    b"place G1",
    b"travel 0 10",
    b"travel 10 0",
    b"team T1 0 360 840",
    b"task A 1 420 420 30 1",
    b"task B 1 420 420 30 1",
    b"pool 0 0",
    b"plan 1 0",
    b"do 0 420 0",
    b"tree 0 0 1 0",
    b"leaf bare",
    b"end",
];

/// In form 1: the team of that day, with its first task alone.
pub const FIRST_ALONE: Lines = &[
    b"crew dossier 1",
    b"size 1 1 2 1",
    b"place BASE",
    b"place G1",
    b"travel 0 10",
    b"travel 10 0",
    b"team T1 0 360 840",
    b"task A 1 420 420 30 1",
    b"pool 0 0",
    b"plan 0 0",
    b"do 0 420 0",
    b"tree 0 0 1 0",
    b"leaf bare",
    b"end",
];

/// The text of a bundle: the day's dossier, the line `parts`, and those of parts.
pub fn bundle(
    alloc: Global,
    day: Lines,
    count: &[u8],
    parts: &[Lines],
) -> Result<Vec<u8>, AllocError> {
    let mut text = joined(
        alloc,
        &[b"crew parts 1\n", &text_of(alloc, day)?, count, b"\n"],
    )?;
    for part in parts {
        text.extend_from_slice(&text_of(alloc, part)?)?;
    }
    Ok(text)
}
