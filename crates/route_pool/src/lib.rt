// The routes of a dossier's pool.
#![tactic(auto)]

mod pool;
mod routes;

pub use node_limits::{Limits, Visit};
pub use pool::{Pool, PoolVerdict};
pub use route_terms::Route;
pub use routes::read_route;
