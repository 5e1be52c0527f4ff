// What a builder gives of places, teams and tasks, and which of them it refuses.
use crate::asserts::{same, same_at};
use crate::days::{assert_times, first_day, places, sizes};
use crew_fixtures::{
    FixtureFault, is_qualified, name, numbered, place_at, task, task_at, team, team_at,
};
use crew_instance::{BuildFault, Builder, Instance};
use crew_terms::{MOST_PLACES, MOST_TASKS, MOST_TEAMS, Task, Team};
use std::alloc::Global;
use std::test::Fail;

#[test]
fn gives_what_was_built(rt: HostRuntime) -> Result<(), Fail> {
    let day = first_day(rt.alloc())?;
    same(&rt, &(day.places(), day.teams(), day.tasks()), &(2, 1, 1));
    let built = day.finish()?;
    same(&rt, &sizes(&built), &(2, 1, 1));
    same(&rt, &place_at(&built, 1), &Some(name(b"G1")?));
    same(&rt, &team_at(&built, 0), &Some(team(b"T1")?));
    same(&rt, &task_at(&built, 0), &Some(task(b"A")?));
    assert_times(&rt, &built, &[(0, 0, 0), (0, 1, 10), (1, 0, 10), (1, 1, 0)]);
    same(&rt, &is_qualified(&built, 0, 0), &Some(true));
    Ok(())
}

/// A team with two skills beside one that has none, and a task that needs one of them.
fn skilled_day(alloc: Global) -> Result<Instance, FixtureFault> {
    let mut day = first_day(alloc)?;
    day.team(Team {
        skills: 6,
        ..team(b"T2")?
    })?;
    day.task(Task {
        skills: 2,
        ..task(b"B")?
    })?;
    Ok(day.finish()?)
}

#[test]
fn compares_skills(rt: HostRuntime) -> Result<(), Fail> {
    let built = skilled_day(rt.alloc())?;
    same(&rt, &sizes(&built), &(2, 2, 2));
    same(&rt, &is_qualified(&built, 0, 1), &Some(false));
    same(&rt, &is_qualified(&built, 1, 1), &Some(true));
    Ok(())
}

#[test]
fn refuses_teams(rt: HostRuntime) -> Result<(), Fail> {
    let mut day = first_day(rt.alloc())?;
    let taken = team(b"T1")?;
    let good = team(b"T2")?;
    let late = Team {
        until: 2881,
        ..good
    };
    for (team, told) in [
        (Team { home: 2, ..taken }, Err(BuildFault::SameName)),
        (Team { home: 2, ..late }, Err(BuildFault::NoPlace)),
        (late, Err(BuildFault::BadShift)),
        (Team { from: 840, ..good }, Err(BuildFault::BadShift)),
        (good, Ok(())),
    ] {
        same_at(&rt, &day.team(team), &told, &team);
    }
    Ok(())
}

#[test]
fn refuses_a_task_by_its_name_and_place(rt: HostRuntime) -> Result<(), Fail> {
    let mut day = first_day(rt.alloc())?;
    let taken = Task {
        place: 2,
        ..task(b"A")?
    };
    let nowhere = Task {
        place: 2,
        minutes: 0,
        ..task(b"B")?
    };
    same(&rt, &day.task(taken), &Err(BuildFault::SameName));
    same(&rt, &day.task(nowhere), &Err(BuildFault::NoPlace));
    Ok(())
}

#[test]
fn refuses_a_task_by_its_times(rt: HostRuntime) -> Result<(), Fail> {
    let mut day = first_day(rt.alloc())?;
    let good = task(b"B")?;
    for (earliest, latest, minutes, teams) in [
        (451, 450, 30, 1),
        (420, 1141, 30, 1),
        (2800, 2881, 30, 1),
        (420, 450, 0, 9),
        (420, 450, 2881, 1),
    ] {
        let bad = Task {
            earliest,
            latest,
            minutes,
            teams,
            ..good
        };
        same_at(&rt, &day.task(bad), &Err(BuildFault::BadWindow), &bad);
    }
    Ok(())
}

#[test]
fn refuses_a_task_by_its_teams(rt: HostRuntime) -> Result<(), Fail> {
    let mut day = first_day(rt.alloc())?;
    let good = task(b"B")?;
    let widest = Task {
        latest: 1140,
        teams: 8,
        minutes: 2880,
        ..good
    };
    for (task, told) in [
        (Task { teams: 0, ..good }, Err(BuildFault::BadTeams)),
        (Task { teams: 9, ..good }, Err(BuildFault::BadTeams)),
        (widest, Ok(())),
    ] {
        same_at(&rt, &day.task(task), &told, &task);
    }
    Ok(())
}

/// As many places, teams and tasks as an instance may have.
fn full_day(alloc: Global) -> Result<Builder, FixtureFault> {
    let mut day = places(alloc, MOST_PLACES as u32)?;
    for n in 0..MOST_TEAMS as u32 {
        day.team(Team {
            name: numbered(n)?,
            ..team(b"T")?
        })?;
    }
    for n in 0..MOST_TASKS as u32 {
        day.task(Task {
            name: numbered(n)?,
            ..task(b"A")?
        })?;
    }
    Ok(day)
}

#[test]
fn refuses_too_many(rt: HostRuntime) -> Result<(), Fail> {
    let mut day = full_day(rt.alloc())?;
    let taken = numbered(0)?;
    let team = Team {
        name: taken,
        ..team(b"T")?
    };
    let task = Task {
        name: taken,
        ..task(b"A")?
    };
    same(
        &rt,
        &(day.places(), day.teams(), day.tasks()),
        &(200, 64, 400),
    );
    same(&rt, &day.place(taken), &Err(BuildFault::TooMany));
    same(&rt, &day.team(team), &Err(BuildFault::TooMany));
    same(&rt, &day.task(task), &Err(BuildFault::TooMany));
    Ok(())
}

#[test]
fn tells_names_apart(rt: HostRuntime) -> Result<(), Fail> {
    let mut day = Builder::new(rt.alloc());
    for called in [
        b"AB1".as_slice(),
        b"B1",
        b"CB1",
        b"AC1",
        b"AB2",
        b"STAND-A1",
        b"STAND-A12",
        b"STAND-A13",
        b"STAND-B13",
    ] {
        let called = name(called)?;
        same_at(&rt, &day.place(called), &Ok(()), &called);
        same_at(&rt, &day.place(called), &Err(BuildFault::SameName), &called);
    }
    same(&rt, &day.places(), &9);
    Ok(())
}

#[test]
fn takes_parts(rt: HostRuntime) -> Result<(), Fail> {
    let alloc = rt.alloc();
    let empty = Instance::of_parts(
        Vec::new(alloc),
        Vec::new(alloc),
        Vec::new(alloc),
        Vec::new(alloc),
    );
    same(&rt, &sizes(&empty), &(0, 0, 0));
    Ok(())
}
