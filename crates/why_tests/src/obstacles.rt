// When a task fits, and what is in its way.
use crate::asserts::same;
use crew_fixtures::{is_plan_of, one_task, plan_of, two_at_once};
use crew_instance::{Instance, Plan};
use crew_terms::PlanVerdict;
use plan_check::check_plan;
use std::test::Fail;
use why_not::{Obstacle, fits, obstacle_at};

/// When task `j` fits, if it does.
fn fit_of(instance: &Instance, plan: &Plan, j: u32) -> Result<Option<u32>, Fail> {
    if !is_plan_of(instance, plan) || j as usize >= instance.tasks() {
        return Err(Fail::new("no plan or no task of the instance"));
    }
    let PlanVerdict::Legal = check_plan(instance, plan) else {
        return Err(Fail::new("not legal"));
    };
    Ok(fits(instance, plan, j))
}

#[test]
fn the_first_minute_fits(rt: HostRuntime) -> Result<(), Fail> {
    let instance = one_task(rt.alloc())?;
    let plan = plan_of(rt.alloc(), 1, &[])?;
    same(&rt, &fit_of(&instance, &plan, 0)?, &Some(420));
    Ok(())
}

#[test]
fn no_minute_fits(rt: HostRuntime) -> Result<(), Fail> {
    let instance = two_at_once(rt.alloc())?;
    let plan = plan_of(rt.alloc(), 2, &[(0, 420, &[0])])?;
    same(&rt, &fit_of(&instance, &plan, 1)?, &None);
    Ok(())
}

#[test]
fn another_task_is_in_the_way(rt: HostRuntime) -> Result<(), Fail> {
    let instance = two_at_once(rt.alloc())?;
    let plan = plan_of(rt.alloc(), 2, &[(0, 420, &[0])])?;
    if !is_plan_of(&instance, &plan) || instance.tasks() != 2 || instance.teams() != 1 {
        return Err(Fail::new("another instance"));
    }
    let PlanVerdict::Legal = check_plan(&instance, &plan) else {
        return Err(Fail::new("not legal"));
    };
    assert!(rt; instance.task(1).latest == 420);
    same(
        &rt,
        &obstacle_at(&instance, &plan, 0, 1, 420),
        &Obstacle::Busy(0),
    );
    Ok(())
}
