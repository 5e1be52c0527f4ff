// Ascents at the roots of generated days. Their fewest unassigned tasks were found by other programs.
use crate::days::small_day;
use node_limits::Limits;
use potentials::Prices;
use price_ascent::{Effort, ascend};
use std::alloc::Global;
use std::test::Fail;

/// The fewest tasks that a plan of the day with the number 0, 1 and so on leaves unassigned.
const FEWEST: [u32; 10] = [2, 3, 8, 4, 3, 6, 3, 2, 4, 2];

/// What an ascent that aims at this many unassigned tasks proves at the root of a day.
fn proved_of_day(alloc: Global, number: u64, goal: u32) -> Result<u32, Fail> {
    let instance = small_day(alloc, number)?;
    let limits = Limits::root(alloc, &instance)?;
    let start = Prices::zero(alloc, &limits)?;
    let effort = Effort {
        rounds: 500,
        step: 192,
        block: 7,
        looks: 1_000_000_000,
    };
    Ok(ascend(alloc, &limits, start, goal, effort)?.proved)
}

/// No prices prove more than a plan leaves unassigned; seven of these days are closed by prices alone.
#[test]
fn most_roots_of_small_days_are_closed(rt: HostRuntime) -> Result<(), Fail> {
    let mut closed = 0u32;
    for (number, fewest) in FEWEST.iter().enumerate() {
        let proved = proved_of_day(rt.alloc(), number as u64, *fewest)?;
        assert!(rt; proved <= *fewest, "day {number}: {proved}");
        closed = closed.saturating_add(u32::from(proved == *fewest));
    }
    assert!(rt; closed >= 7, "{closed}");
    Ok(())
}
