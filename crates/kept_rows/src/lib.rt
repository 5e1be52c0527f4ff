// Rows of which few numbers are kept: the others are whole combinations of these. What a pivot does to them.
#![tactic(auto)]

mod bounds;
mod clearing;
mod columns;
mod factors;
mod opening;
mod quotients;
mod replacing;
mod sums;
mod tableau;

pub use tableau::Tableau;
