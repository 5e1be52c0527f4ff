// Price runs: subgradient steps on minute prices, after the routes that earn the most.
#![tactic(auto)]

mod evaluated;
mod moves;
mod runs;
mod traces;

pub use runs::{Squeezed, prices_at, squeeze};
pub use traces::{StepRoutes, Trace};
