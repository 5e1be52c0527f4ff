// One node of the search: closed by prices, or split with a cause.
#![tactic(auto)]

mod best_plan;
mod choosing;
mod decided;
mod earnings;
mod effort;
mod improving;
mod master;
mod rehearsed;
mod rising;
mod rounds;
mod seeds;
mod solver;
mod spans;
mod step;
mod uses;

pub use branch_choice::Choice;
pub use column_scout::Effort as ScoutEffort;
pub use crew_instance::Plan;
pub use crew_num::Overflow;
pub use effort::Effort;
pub use frac_master::Share;
pub use plan_ruin::Effort as RuinEffort;
pub use potentials::Prices;
pub use price_ascent::Effort as AscentEffort;
pub use solver::process;
pub use step::{NodeEnd, Parts, Shares, Step, Why};
pub use tree_rehearsal::{Effort as RehearsalEffort, Script};
