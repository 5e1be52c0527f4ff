// Shares of columns in a node: whether they are a fractional choice there, and a loose one. All is exact: a sum is a number
// of wholes and a part of one, so that no product with the whole is formed.
#![tactic(auto)]

mod cells;
mod gaps;
mod judge;
mod pairs;
mod sums;
mod value;

pub use sums::ShareSums;
