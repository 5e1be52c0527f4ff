// Price ascent: prices of a node whose bound rises round by round, until they prove what is wanted or the work is done.
#![tactic(auto)]

mod ascent;
mod averages;
mod classes;
mod pace;
mod pricing;
mod ranges;
mod slopes;
mod trail;

pub use ascent::{Ascended, Effort, ascend};
pub use averages::average_uses;
pub use classes::find_firsts;
pub use trail::{FoundRoute, ROUNDS_KEPT};
