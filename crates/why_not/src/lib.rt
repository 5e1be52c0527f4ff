// Why tasks of a plan are open: what keeps each team from them, and when enough teams are free.
#![tactic(auto)]

mod days;
mod laws;
mod minutes;
mod runs;
mod text;
mod words;

pub use laws::{fits_is_told, none_fits_where_packed};
pub use minutes::fits;
pub use team_days::{Obstacle, obstacle_at};
pub use text::why;
