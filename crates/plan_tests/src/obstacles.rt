// What keeps a team from a task.
use crew_fixtures::{lacking_skill, one_task, two_at_once};
use plan_builder::greedy;
use std::test::Fail;
use team_days::{Obstacle, obstacle_at};

#[test]
fn another_task_begins_then(rt: HostRuntime) -> Result<(), Fail> {
    let day = two_at_once(rt.alloc())?;
    let plan = greedy(rt.alloc(), &day)?;
    assert!(rt; plan.len() == 2);
    let (done, open) = if plan.start(0).is_some() {
        (0, 1)
    } else {
        (1, 0)
    };
    assert!(rt; day.task(open).latest == 420);
    assert!(rt; obstacle_at(&day, &plan, 0, open, 420) == Obstacle::Busy(done));
    Ok(())
}

#[test]
fn a_skill_is_missing(rt: HostRuntime) -> Result<(), Fail> {
    let day = lacking_skill(rt.alloc())?;
    let plan = greedy(rt.alloc(), &day)?;
    assert!(rt; day.task(0).latest == 420);
    assert!(rt; obstacle_at(&day, &plan, 0, 0, 420).is_free());
    assert!(rt; obstacle_at(&day, &plan, 1, 0, 420) == Obstacle::Skill);
    Ok(())
}

#[test]
fn a_shift_has_not_begun(rt: HostRuntime) -> Result<(), Fail> {
    let day = one_task(rt.alloc())?;
    let plan = greedy(rt.alloc(), &day)?;
    assert!(rt; day.task(0).latest == 450);
    assert!(rt; obstacle_at(&day, &plan, 0, 0, 369) == Obstacle::Shift);
    Ok(())
}
