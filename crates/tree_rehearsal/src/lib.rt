// A rehearsal of a search's tree by linear programs in fixed point: a script of choices, with prices at its leaves. What it hands
// out is tested where it is used.
#![tactic(auto)]

mod basis;
mod choosing;
mod effort;
mod jumps;
mod lines;
mod looks;
mod mixed;
mod numbers;
mod places;
mod pool;
mod program;
mod rehearsing;
mod rest;
mod rows;
mod scenes;
mod script;
mod simplex;
mod solved;
mod variables;

pub use effort::Effort;
pub use node_limits::Branch;
pub use script::{Rehearsed, Script, rehearse};
