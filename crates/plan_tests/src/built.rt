// Plans from nothing, from uses, and from a plan.
use crew_fixtures::{
    builder_of, crowded_hours, far_builder, gate_task, hardly_overlapping, joint_task, task, team,
    two_at_once,
};
use crew_instance::{Builder, unassigned};
use crew_terms::{Task, Team};
use plan_builder::{Use, from_uses, greedy, pack};
use std::alloc::Global;
use std::test::Fail;

#[test]
fn follows_a_use(rt: HostRuntime) -> Result<(), Fail> {
    let day = two_at_once(rt.alloc())?;
    let uses = [Use {
        team: 0,
        task: 0,
        start: 420,
        num: 1,
    }];
    let plan = from_uses(rt.alloc(), &day, &uses)?;
    assert!(rt; unassigned(&plan) == 1);
    assert!(rt; plan.len() == 2);
    assert!(rt; plan.start(0) == Some(420));
    Ok(())
}

#[test]
fn follows_the_greater_share(rt: HostRuntime) -> Result<(), Fail> {
    let day = two_at_once(rt.alloc())?;
    let shares = [(0, 420, 1), (1, 420, 2), (1, 421, 9), (7, 420, 9)];
    let uses = shares.map(|(task, start, num)| Use {
        team: 0,
        task,
        start,
        num,
    });
    let plan = from_uses(rt.alloc(), &day, &uses)?;
    assert!(rt; plan.len() == 2);
    assert!(rt; plan.start(0).is_none() && plan.start(1) == Some(420));
    Ok(())
}

/// The tasks of the day at three places, the first of the second flight from this minute to that.
fn flights(alloc: Global, earliest: u32, latest: u32) -> Result<Builder, Fail> {
    let ramp = Team {
        from: 300,
        until: 780,
        skills: 0b101,
        ..team(b"RAMP1")?
    };
    let other = Team {
        name: team(b"RAMP2")?.name,
        ..ramp
    };
    let cleaners = Team {
        skills: 0b10,
        ..team(b"CLEAN1")?
    };
    let teams = [ramp, other, cleaners];
    let unload = Task {
        minutes: 35,
        teams: 2,
        skills: 0b1,
        ..task(b"LH123/unload")?
    };
    let clean = Task {
        minutes: 20,
        skills: 0b10,
        ..task(b"LH123/clean")?
    };
    let tasks = [
        Task {
            earliest: 370,
            latest: 380,
            ..unload
        },
        Task {
            earliest: 390,
            latest: 410,
            ..clean
        },
        Task {
            name: task(b"BA845/unload")?.name,
            place: 2,
            earliest,
            latest,
            minutes: 40,
            ..unload
        },
        Task {
            name: task(b"BA845/clean")?.name,
            place: 2,
            earliest: 500,
            latest: 530,
            minutes: 25,
            ..clean
        },
    ];
    Ok(builder_of(alloc, &[b"BASE", b"A12", b"B07"], 12, &teams, &tasks)?)
}

#[test]
fn covers_all_before_the_move_and_three_after_it(rt: HostRuntime) -> Result<(), Fail> {
    let before = flights(rt.alloc(), 480, 495)?.finish()?;
    assert!(rt; unassigned(&greedy(rt.alloc(), &before)?) == 0);
    let after = flights(rt.alloc(), 390, 405)?.finish()?;
    assert!(rt; unassigned(&greedy(rt.alloc(), &after)?) == 1);
    Ok(())
}

#[test]
fn leaves_three_of_twelve(rt: HostRuntime) -> Result<(), Fail> {
    let day = crowded_hours(rt.alloc())?;
    assert!(rt; unassigned(&greedy(rt.alloc(), &day)?) == 3);
    Ok(())
}

#[test]
fn gives_no_team_two_minutes(rt: HostRuntime) -> Result<(), Fail> {
    // Each team is free at some minute of the window, and never both.
    let day = hardly_overlapping(rt.alloc(), 480)?;
    assert!(rt; unassigned(&greedy(rt.alloc(), &day)?) == 1);
    let day = joint_task(rt.alloc())?;
    let plan = greedy(rt.alloc(), &day)?;
    assert!(rt; plan.len() == 1);
    assert!(rt; plan.teams(0) == [0, 1].as_slice());
    Ok(())
}

#[test]
fn a_task_between_makes_room(rt: HostRuntime) -> Result<(), Fail> {
    // The way from the first task to the last is too long without the one between.
    let tasks = [
        gate_task(b"A", 1, 420)?,
        gate_task(b"C", 3, 460)?,
        gate_task(b"X", 2, 440)?,
    ];
    let mut builder = far_builder(rt.alloc(), &[team(b"T")?], &tasks)?;
    builder.freeze(0, 420, &[0])?;
    let day = builder.finish()?;
    let plan = greedy(rt.alloc(), &day)?;
    assert!(rt; unassigned(&plan) == 0);
    let again = pack(rt.alloc(), &day, &plan)?;
    assert!(rt; unassigned(&again) == 0);
    Ok(())
}
