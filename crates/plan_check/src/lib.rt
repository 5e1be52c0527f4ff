// Plans of tasks for teams: whether they are legal, whether they keep the limits of a node, whether one may take the place
// of another, and what each team does.
#![tactic(auto)]

mod check;
mod judge;
mod visits;
mod within;

pub use check::{check_plan, check_plan_in};
pub use crew_instance::{Plan, unassigned};
pub use crew_terms::{PlanVerdict, Visit};
pub use judge::{is_as_good, is_legal};
pub use visits::tasks_of;
pub use within::in_limits;
