// Frozen jobs of a builder, and of the instance that it gives.
use crate::asserts::{same, same_at};
use crate::days::{fault_of, is_frozen, missing, small_day};
use crew_fixtures::{FixtureFault, frozen_at, is_plan_of, name, plan_of, task, team};
use crew_instance::{BuildFault, Builder, Instance, Plan, feasibility, task_of_verdict};
use crew_terms::{PlanVerdict, Task};
use std::alloc::Global;
use std::process::Abort;
use std::test::Fail;

/// A frozen job that a task has, or none.
type Job<'a> = Option<(u32, &'a [u32])>;

/// Two tasks at one place, which the one team can do one after the other.
fn frozen_day(alloc: Global) -> Result<Builder, FixtureFault> {
    small_day(alloc, &[team(b"T1")?], &[task(b"A")?, task(b"B")?])
}

/// Two teams, a task that needs one, and a task that needs both.
fn joint_day(alloc: Global) -> Result<Builder, FixtureFault> {
    let both = Task {
        teams: 2,
        ..task(b"B")?
    };
    small_day(alloc, &[team(b"T1")?, team(b"T2")?], &[task(b"A")?, both])
}

/// What is said of a frozen job of the task.
fn freeze(day: &mut Builder, j: u32, start: u32, teams: &[u32]) -> Result<(), Fail> {
    if j as usize >= day.tasks() {
        return Err("no such task")?;
    }
    day.freeze(j, start, teams)?;
    Ok(())
}

/// The frozen jobs of the tasks cannot all be done, that of this task among them.
fn bad(task: u32) -> Option<BuildFault> {
    Some(BuildFault::BadFrozen { task })
}

/// The day with both tasks frozen at one minute.
fn met_day(alloc: Global) -> Result<Builder, Fail> {
    let mut day = frozen_day(alloc)?;
    freeze(&mut day, 0, 420, &[0])?;
    freeze(&mut day, 1, 420, &[0])?;
    Ok(day)
}

#[test]
fn tells_frozen_jobs_that_meet(rt: HostRuntime) -> Result<(), Fail> {
    let day = met_day(rt.alloc())?;
    same(&rt, &fault_of(&day), &bad(0));
    same(&rt, &fault_of(&day), &bad(0));
    same(&rt, &day.into_instance().err(), &bad(0));
    Ok(())
}

#[test]
fn tells_a_frozen_job_outside_the_shift(rt: HostRuntime) -> Result<(), Fail> {
    let mut day = frozen_day(rt.alloc())?;
    day.travel(0, 1, 70)?;
    freeze(&mut day, 1, 429, &[0])?;
    same(&rt, &fault_of(&day), &bad(1));
    freeze(&mut day, 1, 430, &[0])?;
    same(&rt, &fault_of(&day), &None);
    Ok(())
}

#[test]
fn tells_a_missing_time_first(rt: HostRuntime) -> Result<(), Fail> {
    let mut day = met_day(rt.alloc())?;
    day.place(name(b"G2")?)?;
    same(&rt, &fault_of(&day), &missing(0, 2));
    Ok(())
}

/// Asserts the frozen jobs of the first tasks.
fn assert_frozen(rt: &impl Abort, built: &Instance, jobs: &[Job<'_>]) {
    let mut j = 0u32;
    for job in jobs {
        same_at(rt, &frozen_at(built, j), &Some(*job), &j);
        j = j.saturating_add(1);
    }
}

#[test]
fn gives_frozen_jobs_back(rt: HostRuntime) -> Result<(), Fail> {
    let mut day = frozen_day(rt.alloc())?;
    freeze(&mut day, 1, 420, &[0])?;
    freeze(&mut day, 0, 450, &[0])?;
    let jobs = [Some((450, [0].as_slice())), Some((420, [0].as_slice()))];
    assert_frozen(&rt, &day.finish()?, &jobs);
    assert_frozen(&rt, &day.finish()?, &jobs);
    assert_frozen(&rt, &day.into_instance()?, &jobs);
    Ok(())
}

#[test]
fn freezes_anew(rt: HostRuntime) -> Result<(), Fail> {
    let mut day = frozen_day(rt.alloc())?;
    freeze(&mut day, 0, 420, &[0])?;
    freeze(&mut day, 0, 425, &[0])?;
    day.task(task(b"C")?)?;
    let jobs = [Some((425, [0].as_slice())), None, None];
    assert_frozen(&rt, &day.finish()?, &jobs);
    Ok(())
}

/// A job that is refused: the task, the start, the teams and the fault.
type Refusal = (u32, u32, &'static [u32], BuildFault);

const REFUSALS: [Refusal; 8] = [
    (1, 419, &[1, 0], BuildFault::BadWindow),
    (1, 451, &[0, 1], BuildFault::BadWindow),
    (1, 420, &[1, 0], BuildFault::BadTeams),
    (1, 420, &[0, 0], BuildFault::BadTeams),
    (1, 420, &[0], BuildFault::BadTeams),
    (1, 420, &[0, 1, 2], BuildFault::BadTeams),
    (1, 420, &[0, 2], BuildFault::BadTeams),
    (0, 420, &[], BuildFault::BadTeams),
];

#[test]
fn refuses_to_freeze(rt: HostRuntime) -> Result<(), Fail> {
    let mut day = joint_day(rt.alloc())?;
    freeze(&mut day, 1, 430, &[0, 1])?;
    for (j, start, teams, fault) in REFUSALS {
        assert!(rt; (j as usize) < day.tasks());
        let told = day.freeze(j, start, teams);
        same_at(&rt, &told, &Err(fault), &(j, start, teams));
    }
    let jobs = [None, Some((430, [0, 1].as_slice()))];
    assert_frozen(&rt, &day.finish()?, &jobs);
    Ok(())
}

#[test]
fn dropping_a_team_takes_frozen_jobs_away(rt: HostRuntime) -> Result<(), Fail> {
    let mut day = joint_day(rt.alloc())?;
    freeze(&mut day, 0, 420, &[0])?;
    same(&rt, &is_frozen(&day)?, &true);
    assert!(rt; day.teams() == 2);
    day.drop_team(1);
    same(&rt, &is_frozen(&day)?, &false);
    Ok(())
}

#[test]
fn dropping_a_task_takes_frozen_jobs_away(rt: HostRuntime) -> Result<(), Fail> {
    let mut day = joint_day(rt.alloc())?;
    freeze(&mut day, 0, 420, &[0])?;
    same(&rt, &is_frozen(&day)?, &true);
    assert!(rt; day.tasks() == 2);
    day.drop_task(1);
    same(&rt, &is_frozen(&day)?, &false);
    Ok(())
}

/// The instance with these frozen jobs in place of its own.
fn with_jobs(built: Instance, jobs: Plan) -> Result<Instance, Fail> {
    if !is_plan_of(&built, &jobs) {
        return Err("no plan of the instance")?;
    }
    if feasibility(&built, &jobs) != PlanVerdict::Legal {
        return Err("no feasible plan")?;
    }
    Ok(built.with_frozen(jobs))
}

#[test]
fn takes_frozen_jobs_in_place_of_its_own(rt: HostRuntime) -> Result<(), Fail> {
    let alloc = rt.alloc();
    let built = frozen_day(alloc)?.into_instance()?;
    assert_frozen(&rt, &built, &[None, None]);
    let built = with_jobs(built, plan_of(alloc, 2, &[(0, 450, &[0])])?)?;
    assert_frozen(&rt, &built, &[Some((450, [0].as_slice())), None]);
    let built = with_jobs(built, plan_of(alloc, 2, &[(1, 420, &[0])])?)?;
    assert_frozen(&rt, &built, &[None, Some((420, [0].as_slice()))]);
    let built = with_jobs(built, plan_of(alloc, 2, &[])?)?;
    assert_frozen(&rt, &built, &[None, None]);
    Ok(())
}

/// Verdicts, and the task that each names, the first of two.
const NAMED: [(PlanVerdict, Option<u32>); 7] = [
    (PlanVerdict::Legal, None),
    (PlanVerdict::Frozen(3), Some(3)),
    (PlanVerdict::Window(3), Some(3)),
    (PlanVerdict::Count(3), Some(3)),
    (PlanVerdict::Skill(1, 3), Some(3)),
    (PlanVerdict::Shift(1, 3), Some(3)),
    (PlanVerdict::Clash(1, 3, 2), Some(3)),
];

#[test]
fn tells_the_task_of_a_verdict(rt: HostRuntime) -> Result<(), Fail> {
    for (verdict, task) in NAMED {
        same_at(&rt, &task_of_verdict(verdict), &task, &verdict);
    }
    Ok(())
}
