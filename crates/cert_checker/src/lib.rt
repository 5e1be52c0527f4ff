// The checker: it is given the lines of dossiers, one after another, and says of each what the table of lines says.
#![tactic(auto)]

mod cause;
pub mod checker;
mod due;
mod judge;
pub mod laws;
mod leaf;
mod node;
mod plan;
mod pool;
mod rooms;
mod tree;

pub use checker::{Checker, Said, Stop, Verdict};
pub use crew_instance::{Instance, Plan};
pub use dossier_terms::Reason;
