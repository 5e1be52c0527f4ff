// Ascents at the roots of small instances: what the prices prove there.
use crew_fixtures::{crowded_hours, hardly_overlapping, lacking_skill, two_at_once};
use crew_instance::Instance;
use node_limits::Limits;
use potentials::Prices;
use price_ascent::{Effort, ascend, average_uses};
use std::alloc::Global;
use std::test::Fail;

/// The effort of an ascent at a root.
const ROOT: Effort = Effort {
    rounds: 500,
    step: 192,
    block: 7,
    looks: 100_000_000,
};

/// What an ascent from zero prices proves at the root of the instance, and after how many rounds.
fn proved_at_root(
    alloc: Global,
    instance: &Instance,
    goal: u32,
    effort: Effort,
) -> Result<(u32, u32), Fail> {
    let limits = Limits::root(alloc, instance)?;
    let start = Prices::zero(alloc, &limits)?;
    let found = ascend(alloc, &limits, start, goal, effort)?;
    Ok((found.proved, found.rounds))
}

#[test]
fn two_tasks_at_once(rt: HostRuntime) -> Result<(), Fail> {
    let instance = two_at_once(rt.alloc())?;
    let (proved, _) = proved_at_root(rt.alloc(), &instance, 1, ROOT)?;
    assert_eq!(rt; proved, 1);
    Ok(())
}

#[test]
fn a_task_that_no_team_can_do(rt: HostRuntime) -> Result<(), Fail> {
    let instance = lacking_skill(rt.alloc())?;
    let (proved, _) = proved_at_root(rt.alloc(), &instance, 1, ROOT)?;
    assert_eq!(rt; proved, 1);
    Ok(())
}

/// No prices prove more here: half of each team's routes serve the task whole.
#[test]
fn shares_of_two_routes(rt: HostRuntime) -> Result<(), Fail> {
    for latest in [450, 480] {
        let instance = hardly_overlapping(rt.alloc(), latest)?;
        let (proved, _) = proved_at_root(rt.alloc(), &instance, 1, ROOT)?;
        assert_eq!(rt; proved, 0);
    }
    Ok(())
}

#[test]
fn more_tasks_than_teams(rt: HostRuntime) -> Result<(), Fail> {
    let instance = crowded_hours(rt.alloc())?;
    let (proved, _) = proved_at_root(rt.alloc(), &instance, 3, ROOT)?;
    assert_eq!(rt; proved, 3);
    Ok(())
}

/// The routes of the last round use the one team at one of the two tasks.
#[test]
fn uses_of_the_last_rounds(rt: HostRuntime) -> Result<(), Fail> {
    let instance = two_at_once(rt.alloc())?;
    let limits = Limits::root(rt.alloc(), &instance)?;
    let start = Prices::zero(rt.alloc(), &limits)?;
    let found = ascend(rt.alloc(), &limits, start, 2, Effort { rounds: 5, ..ROOT })?;
    let uses = average_uses(rt.alloc(), &found.routes, found.rounds)?;
    assert!(rt; uses.iter().all(|one| one.team == 0 && one.start == 420));
    assert!(rt; !uses.is_empty());
    Ok(())
}

/// Without a round the prices are those that it began with.
#[test]
fn no_rounds(rt: HostRuntime) -> Result<(), Fail> {
    let instance = two_at_once(rt.alloc())?;
    let limits = Limits::root(rt.alloc(), &instance)?;
    let mut start = Prices::zero(rt.alloc(), &limits)?;
    assert!(rt; start.tasks() == 2);
    start.set_pi(1, -7);
    let found = ascend(rt.alloc(), &limits, start, 1, Effort { rounds: 0, ..ROOT })?;
    assert_eq!(rt; (found.proved, found.rounds), (0, 0));
    assert!(rt; found.prices.tasks() == 2);
    assert_eq!(rt; (found.prices.pi(0), found.prices.pi(1)), (0, -7));
    Ok(())
}

/// With nothing to look at it makes one round.
#[test]
fn few_looks(rt: HostRuntime) -> Result<(), Fail> {
    let instance = two_at_once(rt.alloc())?;
    let (_, rounds) = proved_at_root(rt.alloc(), &instance, 2, Effort { looks: 0, ..ROOT })?;
    assert_eq!(rt; rounds, 1);
    Ok(())
}
