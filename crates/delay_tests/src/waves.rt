// When tasks of small plans really begin, and what they wait for.

use crate::asserts::same;
use crew_fixtures::{FixtureFault, Job, far_gates, gate_instance, is_plan_of, plan_of, task, team};
use crew_instance::Instance;
use crew_terms::{PlanVerdict, Task};
use delay_wave::{Late, are_lates, wave};
use plan_check::check_plan;
use std::alloc::Global;
use std::test::Fail;

/// What is told of a task: when it begins, and the task that it waits for.
type Told = (Option<u32>, Option<u32>);

/// What is told of each task, where these jobs are the plan and these tasks end late.
fn told(
    alloc: Global,
    instance: &Instance,
    jobs: &[Job<'_>],
    lates: &[Late],
) -> Result<Vec<Told>, Fail> {
    if instance.tasks() > 16 {
        return Err("too many tasks")?;
    }
    let plan = plan_of(alloc, instance.tasks(), jobs)?;
    if !is_plan_of(instance, &plan) {
        return Err("a plan of another instance")?;
    }
    let PlanVerdict::Legal = check_plan(instance, &plan) else {
        return Err("not legal")?;
    };
    if !are_lates(&plan, lates) {
        return Err("no late tasks of the plan")?;
    }
    let waits = wave(alloc, instance, &plan, lates)?;
    let mut all = Vec::new(alloc);
    for j in 0..plan.len() as u32 {
        all.push((waits.start(j), waits.held_by(j)))?;
    }
    Ok(all)
}

/// A team's three tasks at three gates, one after the other.
const ROUND: [Job<'static>; 3] = [(0, 420, &[0]), (1, 440, &[0]), (2, 460, &[0])];

#[test]
fn late_task_holds_up_those_behind_it(rt: HostRuntime) -> Result<(), Fail> {
    let instance = far_gates(rt.alloc())?;
    let lates = [Late { task: 0, end: 435 }];
    let all = told(rt.alloc(), &instance, &ROUND, &lates)?;
    let wanted = [
        (Some(420), None),
        (Some(445), Some(0)),
        (Some(465), Some(1)),
    ];
    same(&rt, &all.as_slice(), &wanted.as_slice());
    Ok(())
}

#[test]
fn told_end_before_the_planned_one_moves_nothing(rt: HostRuntime) -> Result<(), Fail> {
    let instance = far_gates(rt.alloc())?;
    let lates = [Late { task: 0, end: 425 }];
    let all = told(rt.alloc(), &instance, &ROUND, &lates)?;
    let wanted = [(Some(420), None), (Some(440), None), (Some(460), None)];
    same(&rt, &all.as_slice(), &wanted.as_slice());
    Ok(())
}

#[test]
fn unassigned_task_has_no_start(rt: HostRuntime) -> Result<(), Fail> {
    let instance = far_gates(rt.alloc())?;
    let all = told(rt.alloc(), &instance, &ROUND[..2], &[])?;
    let wanted = [(Some(420), None), (Some(440), None), (None, None)];
    same(&rt, &all.as_slice(), &wanted.as_slice());
    Ok(())
}

/// A task at the gate that so many teams begin from 07:00 to 10:00 and do in half an hour.
fn at_gate(called: &[u8], teams: u32) -> Result<Task, FixtureFault> {
    Ok(Task {
        latest: 600,
        teams,
        ..task(called)?
    })
}

/// Two teams: each does a task alone, then both do J, and each goes on to a task of its own.
fn two_teams(alloc: Global) -> Result<Instance, FixtureFault> {
    let tasks = [
        at_gate(b"A", 1)?,
        at_gate(b"B", 1)?,
        at_gate(b"J", 2)?,
        at_gate(b"D", 1)?,
        at_gate(b"E", 1)?,
    ];
    gate_instance(alloc, &[team(b"T1")?, team(b"T2")?], &tasks)
}

/// The first team goes on at once, the second ten minutes later.
const TOGETHER: [Job<'static>; 5] = [
    (0, 420, &[0]),
    (1, 420, &[1]),
    (2, 450, &[0, 1]),
    (3, 480, &[0]),
    (4, 490, &[1]),
];

#[test]
fn joint_task_waits_for_its_last_team(rt: HostRuntime) -> Result<(), Fail> {
    let instance = two_teams(rt.alloc())?;
    let lates = [Late { task: 1, end: 455 }];
    let all = told(rt.alloc(), &instance, &TOGETHER, &lates)?;
    let wanted = [
        (Some(420), None),
        (Some(420), None),
        (Some(455), Some(1)),
        (Some(485), Some(2)),
        (Some(490), None),
    ];
    same(&rt, &all.as_slice(), &wanted.as_slice());
    Ok(())
}

#[test]
fn lowest_team_is_told_where_two_are_last(rt: HostRuntime) -> Result<(), Fail> {
    let instance = two_teams(rt.alloc())?;
    let lates = [Late { task: 1, end: 470 }, Late { task: 0, end: 470 }];
    let all = told(rt.alloc(), &instance, &TOGETHER, &lates)?;
    let wanted = [
        (Some(420), None),
        (Some(420), None),
        (Some(470), Some(0)),
        (Some(500), Some(2)),
        (Some(500), Some(2)),
    ];
    same(&rt, &all.as_slice(), &wanted.as_slice());
    Ok(())
}

/// Three teams that hand a delay on: A is the first team's, J the first two teams', K the last two teams', and Z the
/// third team's.
fn three_teams(alloc: Global) -> Result<Instance, FixtureFault> {
    let teams = [team(b"T1")?, team(b"T2")?, team(b"T3")?];
    let tasks = [
        at_gate(b"Z", 1)?,
        at_gate(b"K", 2)?,
        at_gate(b"J", 2)?,
        at_gate(b"A", 1)?,
    ];
    gate_instance(alloc, &teams, &tasks)
}

#[test]
fn delay_goes_on_over_three_teams(rt: HostRuntime) -> Result<(), Fail> {
    let instance = three_teams(rt.alloc())?;
    let jobs: [Job<'_>; 4] = [
        (3, 420, &[0]),
        (2, 460, &[0, 1]),
        (1, 500, &[1, 2]),
        (0, 530, &[2]),
    ];
    let lates = [Late { task: 3, end: 480 }];
    let all = told(rt.alloc(), &instance, &jobs, &lates)?;
    let wanted = [
        (Some(540), Some(1)),
        (Some(510), Some(2)),
        (Some(480), Some(3)),
        (Some(420), None),
    ];
    same(&rt, &all.as_slice(), &wanted.as_slice());
    Ok(())
}

#[test]
fn late_tasks_are_assigned_and_differ(rt: HostRuntime) -> Result<(), Fail> {
    let plan = plan_of(rt.alloc(), 3, &ROUND[..2])?;
    let late = |task, end| Late { task, end };
    same(
        &rt,
        &are_lates(&plan, &[late(0, 430), late(1, 5760)]),
        &true,
    );
    same(
        &rt,
        &are_lates(&plan, &[late(0, 430), late(0, 430)]),
        &false,
    );
    same(&rt, &are_lates(&plan, &[late(2, 430)]), &false);
    same(&rt, &are_lates(&plan, &[late(3, 430)]), &false);
    same(&rt, &are_lates(&plan, &[late(0, 5761)]), &false);
    Ok(())
}
