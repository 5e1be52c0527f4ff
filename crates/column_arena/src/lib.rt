// The columns of a search: routes that were found, each of them once.
#![tactic(auto)]

mod arenas;
mod carry;
mod columns;
mod legal;
mod names;
mod store;
mod uses;
mod vectors;

pub use arenas::ArenaColumns;
pub use carry::Carry;
pub use columns::Columns;
use crew_terms::{MOST_TASKS, MOST_TEAMS};
pub use legal::legal_in;
pub use node_limits::{Limits, Visit};
pub use vectors::VecColumns;

// A list for each team and task.
const LISTS: usize = MOST_TEAMS * MOST_TASKS;
