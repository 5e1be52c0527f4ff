// Records that are refused.

use day_terms::DayCause;
use flight_changes::ChangeFault;

/// Why a record is refused.
#[derive(Clone, Copy, Debug, PartialEq, Eq)]
pub enum StopCause {
    /// In itself: for its kind, for the number of its fields, or for its first bad field.
    InItself(DayCause),
    /// By the state that the records before it come to, where refused ones are left out.
    Change(ChangeFault),
}

/// A record that is refused: its number, from 1, and why.
#[derive(Clone, Copy, Debug, PartialEq, Eq)]
pub struct Stop {
    pub number: u64,
    pub cause: StopCause,
}
