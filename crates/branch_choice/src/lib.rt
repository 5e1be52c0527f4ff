// Where a node of the search is split.
#![tactic(auto)]

mod choices;
mod ends;
mod pairs;
mod uses;
mod windows;

pub use choices::choose;
pub use crew_terms::Choice;
pub use uses::Use;
