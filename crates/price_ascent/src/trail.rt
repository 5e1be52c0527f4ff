// The routes of the last rounds of an ascent.
ghost use Rattle.std.specs.Prelude.{◌≡◌, ◌<◌, All};
ghost use Rattle.crew_terms.specs.Limits.{IsRoute, Limits as NodeLimits, teams_in};
ghost use Rattle.price_ascent.specs.Found.{IsFound};

use crew_terms::Visit;
use std::alloc::{AllocError, Global};
use std::collections::VecDeque;

/// So many rounds of routes are kept.
pub const ROUNDS_KEPT: u32 = 60;

/// A route that earned the most for its team at the prices of a round.
#[derive(Drop)]
pub struct FoundRoute {
    pub round: u32,
    pub team: u32,
    pub visits: Vec<Visit>,
}

// Whether the first route is of a round up to this one.
fn begins_before(routes: &VecDeque<FoundRoute>, round: u32) -> bool {
    match routes.front() {
        Some(first) => first.round < round,
        None => false,
    }
}

/// Drops the routes of rounds that are too long ago.
pub(crate) fn forget(routes: &mut VecDeque<FoundRoute>, round: u32)
    ensures { (n : NodeLimits) → All (IsFound n) routes.old.items
        → All (IsFound n) routes.new.items }
{
    for _ in 0..routes.len() {
        if !begins_before(routes, round.saturating_sub(ROUNDS_KEPT)) {
            break;
        }
        let _ = routes.pop_front();
    }
}

/// Adds the route of team `k`, if it has visits; AllocError where there is no memory.
pub(crate) fn keep(
    alloc: Global,
    routes: &mut VecDeque<FoundRoute>,
    round: u32,
    team: u32,
    visits: &[Visit],
) -> Result<(), AllocError>
    ensures { (n : NodeLimits) → team < teams_in n → IsRoute n team visits.now
        → All (IsFound n) routes.old.items → All (IsFound n) routes.new.items }
{
    if visits.is_empty() {
        return Ok(());
    }
    let visits = Vec::from_slice(alloc, visits)?;
    routes.push_back(FoundRoute {
        round,
        team,
        visits,
    })?;
    Ok(())
}
