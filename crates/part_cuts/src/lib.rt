// A division of an instance's tasks into parts of the day, by cuts at minutes at which few tasks of several teams can be at work.
// Any division is sound; this one is a heuristic.
#![tactic(auto)]

mod cuts;
mod lists;
mod quiet;

pub use crew_instance::Instance;
pub use lists::divided;
