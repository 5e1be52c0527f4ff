// Plans that are ruined and recreated, on small days and on generated ones, whose least numbers of unassigned tasks are known
// from bounds that another program proved.
ghost use Rattle.std.specs.Prelude.{IfOk};
ghost use Rattle.crew_terms.specs.Legal.{IsLegal};

use crate::days::day;
use crate::small::{first_start, late_plan, two_tasks};
use crew_instance::{Instance, Plan, unassigned};
use plan_builder::greedy;
use plan_ruin::{Effort, rebuild, rebuild_near};
use std::alloc::Global;
use std::test::Fail;

/// So many looks.
fn effort(looks: u64) -> Effort {
    Effort { looks, seed: 1 }
}

/// Greedy's plan, rebuilt by so many looks, or until no more tasks are unassigned than these.
fn rebuilt(alloc: Global, day: &Instance, looks: u64, enough: u32) -> Result<Plan, Fail>
    ensures { IfOk result (λ p. IsLegal day.now p) }
{
    let plan = greedy(alloc, day)?;
    Ok(rebuild(alloc, day, &plan, enough, effort(looks))?)
}

#[test]
fn finds_the_least_of_small_days(rt: HostRuntime) -> Result<(), Fail> {
    for (number, least) in [(0, 2), (1, 3), (2, 8)] {
        let day = day(rt.alloc(), number, 4, 15)?;
        let plan = rebuilt(rt.alloc(), &day, 200_000, least)?;
        assert!(rt; unassigned(&plan) == least, "day {number}");
    }
    Ok(())
}

#[test]
fn makes_room_for_a_joint_task(rt: HostRuntime) -> Result<(), Fail> {
    let day = two_tasks(rt.alloc())?.finish()?;
    let plan = late_plan(rt.alloc(), &day)?;
    assert!(rt; unassigned(&plan) == 1 && first_start(&plan) == Some(450));
    let found = rebuild(rt.alloc(), &day, &plan, 0, effort(100_000))?;
    assert!(rt; unassigned(&found) == 0 && first_start(&found) == Some(420));
    assert!(rt; found.len() == 2);
    assert!(rt; found.teams(1) == [0, 1].as_slice());
    Ok(())
}

#[test]
fn leaves_a_plan_that_is_good_enough(rt: HostRuntime) -> Result<(), Fail> {
    let day = two_tasks(rt.alloc())?.finish()?;
    let plan = late_plan(rt.alloc(), &day)?;
    for (looks, enough) in [(0, 0), (100_000, 1), (100_000, 2)] {
        let found = rebuild(rt.alloc(), &day, &plan, enough, effort(looks))?;
        assert!(rt; unassigned(&found) == 1 && first_start(&found) == Some(450));
    }
    Ok(())
}

#[test]
fn frozen_jobs_stay(rt: HostRuntime) -> Result<(), Fail> {
    let mut builder = two_tasks(rt.alloc())?;
    assert!(rt; builder.tasks() == 2);
    builder.freeze(0, 450, &[1])?;
    let day = builder.finish()?;
    let found = rebuilt(rt.alloc(), &day, 100_000, 0)?;
    assert!(rt; unassigned(&found) == 1 && first_start(&found) == Some(450));
    Ok(())
}

/// Whether the plans have the same jobs.
fn are_equal(one: &Plan, other: &Plan) -> bool {
    if one.len() != other.len() {
        return false;
    }
    for j in 0..one.len() as u32 {
        if one.start(j) != other.start(j) || one.teams(j) != other.teams(j) {
            return false;
        }
    }
    true
}

#[test]
fn equal_calls_give_equal_plans(rt: HostRuntime) -> Result<(), Fail> {
    let day = day(rt.alloc(), 3, 8, 40)?;
    let one = rebuilt(rt.alloc(), &day, 400_000, 0)?;
    let other = rebuilt(rt.alloc(), &day, 400_000, 0)?;
    assert!(rt; unassigned(&one) == 3 && are_equal(&one, &other));
    Ok(())
}

/// How many tasks have the same teams in both plans.
fn kept(one: &Plan, other: &Plan) -> u32 {
    if one.len() != other.len() {
        return 0;
    }
    let mut count = 0u32;
    for j in 0..one.len() as u32 {
        if one.start(j).is_some() && one.teams(j) == other.teams(j) {
            count = count.saturating_add(1);
        }
    }
    count
}

#[test]
fn goes_near_to_an_old_plan(rt: HostRuntime) -> Result<(), Fail> {
    let day = day(rt.alloc(), 3, 8, 40)?;
    let old = greedy(rt.alloc(), &day)?;
    let plan = rebuilt(rt.alloc(), &day, 400_000, 3)?;
    let near = rebuild_near(rt.alloc(), &day, &plan, &old, effort(400_000))?;
    assert!(rt; unassigned(&plan) == 3 && unassigned(&near) == 3);
    assert!(rt; kept(&plan, &old) < kept(&near, &old));
    Ok(())
}

#[test]
fn an_old_plan_stays_whole(rt: HostRuntime) -> Result<(), Fail> {
    let day = day(rt.alloc(), 3, 8, 40)?;
    let plan = rebuilt(rt.alloc(), &day, 400_000, 3)?;
    let near = rebuild_near(rt.alloc(), &day, &plan, &plan, effort(200_000))?;
    assert!(rt; are_equal(&near, &plan));
    Ok(())
}
