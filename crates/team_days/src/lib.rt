// The days of the teams in a plan: where a team can take a task more, and that a plan stays legal exactly there.
#![tactic(auto)]

mod idle;
mod laws;
mod obstacles;

pub use idle::{LONGEST_IDLE, idle_in};
pub use laws::{free_teams_may_begin, jobs_stay, obstacles_are_told, other_days_stay};
pub use obstacles::{Obstacle, is_free_in, obstacle_at, obstacle_in};
