// Uses of a node: the visits that a solution of the master problem makes in part.

/// A visit that routes of a node make in part: the team begins the task at the minute of the day, with `num` parts of a
/// whole.
#[derive(Clone, Copy, Debug, PartialEq, Eq)]
pub struct Use {
    pub team: u32,
    pub task: u32,
    pub start: u32,
    pub num: i128,
}
