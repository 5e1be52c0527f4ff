// The words of the planner's search: the choices that split a node, what prices prove in it, the rows of the master problem
// and their runs, earned splits, and the tree, the steps and the runs of a search.
#![tactic(auto)]

pub use crew_num::{Op, Overflow};

/// The most pivots of a run of the master, in a step of a planner's search.
pub const PIVOTS: u32 = 20_000;

/// The place of the right side in a row.
pub const RIGHT: usize = 0;

/// The place of the value in a row; the variables have the places behind it.
pub const VALUE: usize = 1;

/// What a number of an opening row belongs to. The row of a team opens with its unused share as basic variable, that of
/// a task with its shortage, and that of a required pair with its missed part.
#[derive(Clone, Copy, Debug, PartialEq, Eq)]
pub enum Place {
    /// The right side.
    Right,
    /// The value.
    Value,
    /// The share of the team that no route has.
    Unused(u32),
    /// The unassigned share of the task.
    Unassigned(u32),
    /// What the task lacks in visits.
    Shortage(u32),
    /// What the task has in visits too many.
    Excess(u32),
    /// What the team lacks in visits to the task that it is required at.
    Missed(u32, u32),
    /// What the team has too many.
    Repeated(u32, u32),
}
