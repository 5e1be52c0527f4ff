// Rows with known answers. The first step moves a price by a quarter of a task for each visit that it lacks.
use crew_fixtures::{
    FixtureFault, gate_builder, gate_instance, hardly_overlapping, joint_task, lacking_skill, task,
    team, there_and_back, two_at_once,
};
use crew_instance::{Instance, Task, Team};
use price_run::{Squeezed, prices_at, squeeze};
use std::alloc::{AllocError, Global};
use std::fmt::Debug;
use std::process::Abort;
use std::test::Fail;

/// A quarter of a task, in 1/D of a task.
const QUARTER: i64 = 210_000_000;

/// Ends the test where the two differ, and tells both.
fn same<T: PartialEq + Debug>(rt: &impl Abort, told: &T, wanted: &T) {
    assert_eq!(rt; told, wanted);
}

/// Ends the test where the run does not have its first greatest bound after `at` steps, or that bound does not prove `l`.
fn ends(rt: &impl Abort, got: &Squeezed, at: u32, l: u32) {
    same(rt, &got.at, &at);
    same(rt, &got.l, &l);
}

/// The prices of task `j` after `s` steps of the run; none where there is no such step or task.
fn prices_of(
    alloc: Global,
    day: &Instance,
    got: &Squeezed,
    s: u32,
    j: usize,
) -> Result<Vec<i64>, AllocError> {
    if s > 1000 || s as usize > got.trace.len() {
        return Ok(Vec::new(alloc));
    }
    let prices = prices_at(alloc, day, &got.trace, s)?;
    match prices.rows().get(j) {
        Some(row) => row.as_slice().to_vec(alloc),
        None => Ok(Vec::new(alloc)),
    }
}

/// How many visits team `k` makes in step `s`.
fn visits_in(got: &Squeezed, s: usize, k: usize) -> Option<usize> {
    if s >= got.trace.len() {
        return None;
    }
    let routes = got.trace.step(s);
    if k >= routes.len() {
        return None;
    }
    Some(routes.route(k).len())
}

/// One team can do one of two tasks: a quarter for each of both proves that one is left.
#[test]
fn one_step_proves_one(rt: HostRuntime) -> Result<(), Fail> {
    let day = two_at_once(rt.alloc())?;
    let got = squeeze(rt.alloc(), &day, 1)?;
    ends(&rt, &got, 1, 1);
    same(&rt, &got.trace.len(), &1);
    same(&rt, &visits_in(&got, 0, 0), &Some(0));
    for j in 0..2 {
        let told = prices_of(rt.alloc(), &day, &got, 1, j)?;
        same(&rt, &told.as_slice(), &[QUARTER].as_slice());
    }
    Ok(())
}

/// No two teams can begin the joint task at one minute: it is lost before the first step, and each bound after one is the
/// same, so the first stands.
#[test]
fn no_minute_has_enough_teams(rt: HostRuntime) -> Result<(), Fail> {
    let day = hardly_overlapping(rt.alloc(), 480)?;
    let got = squeeze(rt.alloc(), &day, 0)?;
    ends(&rt, &got, 0, 1);
    same(&rt, &got.trace.len(), &0);
    let told = prices_of(rt.alloc(), &day, &got, 0, 0)?;
    same(&rt, &told.len(), &61);
    same(&rt, &told.iter().any(|price| *price != 0), &false);
    let more = squeeze(rt.alloc(), &day, 3)?;
    ends(&rt, &more, 0, 1);
    same(&rt, &more.trace.len(), &3);
    Ok(())
}

/// Neither has the joint task one for which a team lacks the skill.
#[test]
fn too_few_teams_have_the_skill(rt: HostRuntime) -> Result<(), Fail> {
    let day = lacking_skill(rt.alloc())?;
    let got = squeeze(rt.alloc(), &day, 0)?;
    ends(&rt, &got, 0, 1);
    let joint = joint_task(rt.alloc())?;
    let other = squeeze(rt.alloc(), &joint, 5)?;
    same(&rt, &other.l, &0);
    Ok(())
}

/// A frozen joint task has one possible minute, and a price for each minute of its own window.
#[test]
fn frozen_tasks_have_one_minute(rt: HostRuntime) -> Result<(), Fail> {
    let joint = Task {
        teams: 2,
        ..task(b"J")?
    };
    let mut day = gate_builder(rt.alloc(), &[team(b"T1")?, team(b"T2")?], &[joint])?;
    day.freeze(0, 430, &[0, 1])?;
    let frozen = day.finish()?;
    let got = squeeze(rt.alloc(), &frozen, 1)?;
    // The two teams earn together what the task adds, so the bound stays 0, and the first of equals stands.
    ends(&rt, &got, 0, 0);
    let told = prices_of(rt.alloc(), &frozen, &got, 1, 0)?;
    same(&rt, &told.len(), &31);
    same(&rt, &told.get(10).copied(), &Some(2 * QUARTER));
    same(&rt, &told.iter().filter(|price| **price == 0).count(), &30);
    Ok(())
}

/// A joint task and one that a single team has the skill for, both at 07:00 alone: one of them is left.
fn joint_and_skilled(alloc: Global) -> Result<Instance, FixtureFault> {
    let first = Team {
        skills: 1,
        ..team(b"T1")?
    };
    let joint = Task {
        latest: 420,
        teams: 2,
        ..task(b"J")?
    };
    let single = Task {
        latest: 420,
        skills: 1,
        ..task(b"A")?
    };
    gate_instance(alloc, &[first, team(b"T2")?], &[joint, single])
}

#[test]
fn a_joint_task_at_the_minute_of_another(rt: HostRuntime) -> Result<(), Fail> {
    let day = joint_and_skilled(rt.alloc())?;
    let got = squeeze(rt.alloc(), &day, 1)?;
    ends(&rt, &got, 1, 1);
    let joint = prices_of(rt.alloc(), &day, &got, 1, 0)?;
    same(&rt, &joint.as_slice(), &[2 * QUARTER].as_slice());
    let single = prices_of(rt.alloc(), &day, &got, 1, 1)?;
    same(&rt, &single.as_slice(), &[QUARTER].as_slice());
    Ok(())
}

/// The one team can't do the joint task A, which is lost. Before the second step its route earns three quarters at B,
/// since it comes back over A: the price of B falls by two eighths, those of A by one at each of the two minutes.
#[test]
fn a_route_that_comes_back_counts_each_visit(rt: HostRuntime) -> Result<(), Fail> {
    let day = there_and_back(rt.alloc())?;
    let got = squeeze(rt.alloc(), &day, 2)?;
    ends(&rt, &got, 0, 1);
    same(&rt, &visits_in(&got, 0, 0), &Some(0));
    same(&rt, &visits_in(&got, 1, 0), &Some(5));
    let after = prices_of(rt.alloc(), &day, &got, 2, 1)?;
    same(&rt, &after.as_slice(), &[0].as_slice());
    let joint = prices_of(rt.alloc(), &day, &got, 2, 0)?;
    same(&rt, &joint.len(), &121);
    same(&rt, &joint.get(30).copied(), &Some(-QUARTER / 2));
    same(&rt, &joint.get(90).copied(), &Some(-QUARTER / 2));
    same(
        &rt,
        &joint.iter().filter(|price| **price == 0).count(),
        &119,
    );
    Ok(())
}

/// A day without tasks, and what no step finds.
#[test]
fn nothing_to_do(rt: HostRuntime) -> Result<(), Fail> {
    let day = gate_instance(rt.alloc(), &[team(b"T1")?], &[])?;
    let got = squeeze(rt.alloc(), &day, 2)?;
    ends(&rt, &got, 0, 0);
    same(&rt, &visits_in(&got, 1, 0), &Some(0));
    Ok(())
}
