// The day on which pricing has most to look at: 200 places, each so far from each other, and windows of twelve hours.
use crate::errors::BenchError;
use crew_instance::{Builder, Instance};
use crew_terms::{LAST_MINUTE, MOST_PLACES, Name, Task, Team};
use std::alloc::Global;

/// So many minutes apart are two places.
const APART: u32 = 12;

/// The name that spells a letter and a number.
fn named(alloc: Global, letter: &str, number: u32) -> Result<Name, BenchError> {
    let text = format!(in alloc; "{letter}{number}")?;
    Name::read(text.as_bytes()).ok_or(BenchError::Day)
}

/// The places, with the time from each to each other.
fn places(alloc: Global) -> Result<Builder, BenchError> {
    let mut builder = Builder::new(alloc);
    for p in 0..MOST_PLACES as u32 {
        builder.place(named(alloc, "P", p)?)?;
    }
    builder.default_travel(APART);
    Ok(builder)
}

/// Adds teams of two days, each at a home of its own, so that no two of them are alike.
fn add_teams(alloc: Global, builder: &mut Builder, teams: u32) -> Result<(), BenchError> {
    for k in 0..teams {
        builder.team(Team {
            name: named(alloc, "T", k)?,
            home: k,
            from: 0,
            until: LAST_MINUTE,
            skills: 0,
        })?;
    }
    Ok(())
}

/// Adds tasks of five hours for one team, which may begin in twelve hours; a team can do three.
fn add_tasks(alloc: Global, builder: &mut Builder, tasks: u32) -> Result<(), BenchError> {
    for j in 0..tasks {
        builder.task(Task {
            name: named(alloc, "J", j)?,
            place: j % MOST_PLACES as u32,
            earliest: 600,
            latest: 1320,
            minutes: 300,
            teams: 1,
            skills: 0,
        })?;
    }
    Ok(())
}

/// The instance of so many teams and tasks.
pub fn widest(alloc: Global, teams: u32, tasks: u32) -> Result<Instance, BenchError> {
    let mut builder = places(alloc)?;
    add_teams(alloc, &mut builder, teams)?;
    add_tasks(alloc, &mut builder, tasks)?;
    Ok(builder.finish()?)
}
