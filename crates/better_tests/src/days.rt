// Generated days, whose least numbers of unassigned tasks are known from bounds that another program proved.
ghost use Rattle.std.specs.Prelude.{◌≤◌, All, IfOk};
ghost use Rattle.crew_terms.specs.declared.TheConstants.{MOST_TASKS, MOST_TEAMS};
ghost use Rattle.day_terms.specs.Ranges.{IsInRange};

use crew_instance::{Instance, unassigned};
use day_gen::{Entry, make};
use flight_changes::Desk;
use plan_builder::greedy;
use plan_search::{Effort, better};
use std::alloc::Global;
use std::test::Fail;

/// The entries of a generated day.
fn entries_of(alloc: Global, number: u64, teams: u32, tasks: u32) -> Result<Vec<Entry>, Fail>
    requires teams { teams ≤ MOST_TEAMS }
    requires tasks { tasks ≤ MOST_TASKS }
    ensures { IfOk result (λ entries. All IsInRange entries.items) }
{
    Ok(make(alloc, number, teams, tasks, 20)?)
}

/// The instance of a generated day.
pub(crate) fn day(alloc: Global, number: u64, teams: u32, tasks: u32) -> Result<Instance, Fail>
    requires teams { teams ≤ MOST_TEAMS }
    requires tasks { tasks ≤ MOST_TASKS }
{
    let entries = entries_of(alloc, number, teams, tasks)?;
    let mut desk = Desk::new(alloc);
    for entry in &entries {
        desk.apply(entry)?;
    }
    Ok(desk.instance()?)
}

/// How many tasks are unassigned before a search and after it.
fn searched(alloc: Global, day: &Instance, iterations: u32) -> Result<(u32, u32), Fail> {
    let plan = greedy(alloc, day)?;
    let effort = Effort {
        iterations,
        enough: 0,
        weights: None,
    };
    let found = better(alloc, day, &plan, effort)?;
    Ok((unassigned(&plan), unassigned(&found)))
}

#[test]
fn finds_the_least_of_small_days(rt: HostRuntime) -> Result<(), Fail> {
    for (number, least) in [(0, 2), (1, 3), (2, 8)] {
        let day = day(rt.alloc(), number, 4, 15)?;
        let (_, found) = searched(rt.alloc(), &day, 100)?;
        assert!(rt; found == least, "day {number}");
    }
    Ok(())
}

#[test]
fn leaves_fewer_than_greedy(rt: HostRuntime) -> Result<(), Fail> {
    let day = day(rt.alloc(), 3, 8, 40)?;
    let (before, after) = searched(rt.alloc(), &day, 1000)?;
    assert!(rt; before == 7 && after == 3);
    Ok(())
}
