// Shares of routes: what a fractional choice in a node is, what it costs, and when it is loose.
#![tactic(auto)]

/// What a visit that is missing or too many costs, in unassigned tasks: the penalty of the big-M method.
pub const BIG_M: u32 = 1_000_000;

/// A thousandth of a task, in 1/D: a loose split's prices may stay this far behind its shares.
pub const MARGIN: u32 = 840_000;
