// Plans: what they hold, and what is taken back.
use crate::asserts::same;
use crew_fixtures::plan_of;
use crew_instance::{Plan, unassigned};
use std::test::Fail;

/// The start minute and the teams of a task; None where the plan is for fewer tasks.
fn job_at(plan: &Plan, j: u32) -> Option<(Option<u32>, &[u32])> {
    if j as usize >= plan.len() {
        return None;
    }
    Some((plan.start(j), plan.teams(j)))
}

#[test]
fn holds_what_is_assigned(rt: HostRuntime) -> Result<(), Fail> {
    let both: [u32; 2] = [0, 3];
    let plan = plan_of(rt.alloc(), 6, &[(1, 440, &both[..1]), (2, 460, &both)])?;
    same(&rt, &plan.len(), &6);
    same(&rt, &unassigned(&plan), &4);
    same(&rt, &job_at(&plan, 0), &Some((None, &both[..0])));
    same(&rt, &job_at(&plan, 2), &Some((Some(460), both.as_slice())));
    Ok(())
}

#[test]
fn takes_an_assignment_back(rt: HostRuntime) -> Result<(), Fail> {
    let both: [u32; 2] = [0, 3];
    let mut plan = plan_of(rt.alloc(), 6, &[(1, 440, &both[..1]), (2, 460, &both)])?;
    let before = plan.copy()?;
    plan.clear(1);
    same(&rt, &(unassigned(&plan), unassigned(&before)), &(5, 4));
    same(&rt, &job_at(&plan, 1), &Some((None, &both[..0])));
    same(&rt, &job_at(&before, 1), &Some((Some(440), &both[..1])));
    same(&rt, &job_at(&plan, 2), &job_at(&before, 2));
    Ok(())
}

#[test]
fn holds_more_teams_than_a_task_may_need(rt: HostRuntime) -> Result<(), Fail> {
    let nine: [u32; 9] = [8, 7, 6, 5, 4, 3, 2, 1, 0];
    let mut plan = plan_of(rt.alloc(), 6, &[(1, 440, &nine[..8]), (2, 460, &nine)])?;
    let copy = plan.copy()?;
    same(&rt, &job_at(&plan, 1), &Some((Some(440), &nine[..8])));
    same(&rt, &job_at(&plan, 2), &Some((Some(460), nine.as_slice())));
    plan.clear(2);
    same(&rt, &job_at(&copy, 1), &Some((Some(440), &nine[..8])));
    same(&rt, &job_at(&copy, 2), &Some((Some(460), nine.as_slice())));
    Ok(())
}
