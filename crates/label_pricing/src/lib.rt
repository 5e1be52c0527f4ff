// Pricing: the most that one team can earn by the prices of a node, a route that earns it, and potentials that prove it.
#![tactic(auto)]

mod after;
mod grid;
mod labels;
mod laws;
mod likeness;
mod minutes;
mod near;
mod pricer;
mod proved;
mod routes;
mod sweep;
mod tables;
mod turns;
mod visits;
mod workspace;
mod worths;

pub use crew_terms::Visit;
pub use laws::{
    best_falls, best_potentials_hold, best_worth, earnings_fit, one_worth, teams_have_bests,
};
pub use likeness::{alike, alike_teams_earn_alike};
pub use pricer::{Priced, Pricer, price_team};
pub use proved::{Proved, most_proved};
pub use visits::Visits;
pub use worths::worths_decide;
