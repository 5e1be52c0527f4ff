// Builders that hold places, teams and tasks, and the instance of a base and a gate.
ghost use Rattle.std.specs.Prelude.{◌≡◌, ◌≤◌, length, IfOk, OnOk, [], ◌++◌};
ghost use Rattle.crew_terms.specs.declared.TheConstants.{LAST_MINUTE};
ghost use Rattle.crew_fixtures.specs.Sizes.{HasParts, HasSizes};

use crate::faults::FixtureFault;
use crate::parts::{gate_task, name, task, team};
use crew_instance::{Builder, Instance};
use crew_terms::{Task, Team};
use std::alloc::Global;

/// A builder with these places, and no travel times.
pub fn builder_of_places(alloc: Global, places: &[&[u8]]) -> Result<Builder, FixtureFault>
    ensures { IfOk result (HasParts (length places.now) [] []) }
{
    let mut day = Builder::new(alloc);
    for place in places {
        day.place(name(place)?)?;
    }
    Ok(day)
}

/// Adds teams.
fn add_teams(day: &mut Builder, teams: &[Team]) -> Result<(), FixtureFault>
    ensures places { OnOk result (day.new.places ≡ day.old.places) }
    ensures teams { OnOk result (day.new.teams ≡ day.old.teams ++ teams.now) }
    ensures tasks { OnOk result (day.new.tasks ≡ day.old.tasks) }
{
    for team in teams {
        day.team(*team)?;
    }
    Ok(())
}

/// Adds tasks.
fn add_tasks(day: &mut Builder, tasks: &[Task]) -> Result<(), FixtureFault>
    ensures places { OnOk result (day.new.places ≡ day.old.places) }
    ensures teams { OnOk result (day.new.teams ≡ day.old.teams) }
    ensures tasks { OnOk result (day.new.tasks ≡ day.old.tasks ++ tasks.now) }
{
    for task in tasks {
        day.task(*task)?;
    }
    Ok(())
}

/// A builder with these places, each so many minutes from each other, and these teams and tasks.
pub fn builder_of(
    alloc: Global,
    places: &[&[u8]],
    minutes: u32,
    teams: &[Team],
    tasks: &[Task],
) -> Result<Builder, FixtureFault>
    requires { minutes ≤ LAST_MINUTE }
    ensures { IfOk result (HasParts (length places.now) teams.now tasks.now) }
{
    let mut day = builder_of_places(alloc, places)?;
    day.default_travel(minutes);
    add_teams(&mut day, teams)?;
    add_tasks(&mut day, tasks)?;
    Ok(day)
}

/// The instance with a base, a gate ten minutes from it, and these teams and tasks.
pub fn gate_instance(
    alloc: Global,
    teams: &[Team],
    tasks: &[Task],
) -> Result<Instance, FixtureFault>
    ensures { IfOk result (HasSizes 2 (length teams.now) (length tasks.now)) }
{
    Ok(gate_builder(alloc, teams, tasks)?.finish()?)
}

/// A builder with a base, a gate ten minutes from it, and these teams and tasks.
pub fn gate_builder(alloc: Global, teams: &[Team], tasks: &[Task]) -> Result<Builder, FixtureFault>
    ensures { IfOk result (HasParts 2 teams.now tasks.now) }
{
    builder_of(alloc, &[b"BASE", b"G1"], 10, teams, tasks)
}

/// A builder with a base, the gates G1, G2 and G3, and these teams and tasks. It takes an hour from G1 to G3, and ten
/// minutes else from gate to gate; five minutes from the base to a gate, and 25 back.
pub fn far_builder(alloc: Global, teams: &[Team], tasks: &[Task]) -> Result<Builder, FixtureFault>
    ensures { IfOk result (HasParts 4 teams.now tasks.now) }
{
    let places: [&[u8]; 4] = [b"BASE", b"G1", b"G2", b"G3"];
    let mut day = builder_of(alloc, &places, 10, teams, tasks)?;
    day.travel(1, 3, 60)?;
    for gate in 1..4 {
        day.travel(0, gate, 5)?;
        day.travel(gate, 0, 25)?;
    }
    Ok(day)
}
