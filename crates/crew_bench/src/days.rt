// The instance of a generated day.
ghost use Rattle.std.specs.Prelude.{◌≤◌, All};
ghost use Rattle.crew_terms.specs.declared.TheConstants.{MOST_TASKS, MOST_TEAMS};
ghost use Rattle.day_terms.specs.Ranges.{IsInRange};

use crate::errors::BenchError;
use crew_instance::Instance;
use day_gen::make;
use day_terms::Entry;
use flight_changes::Desk;
use std::alloc::Global;

/// The desk after these entries.
fn desk_after(alloc: Global, entries: &[Entry]) -> Result<Desk, BenchError>
    requires { All IsInRange entries.now }
{
    let mut desk = Desk::new(alloc);
    for entry in entries {
        desk.apply(entry)?;
    }
    Ok(desk)
}

/// The instance of the generated day with this number and so many teams and tasks.
pub fn instance_of(alloc: Global, day: u64, teams: u32, tasks: u32) -> Result<Instance, BenchError>
    requires teams { teams ≤ MOST_TEAMS }
    requires tasks { tasks ≤ MOST_TASKS }
{
    let entries = make(alloc, day, teams, tasks, 0)?;
    let desk = desk_after(alloc, &entries)?;
    Ok(desk.instance()?)
}
