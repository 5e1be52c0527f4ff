// Plans: whether they are legal, what a team does in them, and whether they are within the limits of a node.
ghost use Rattle.std.specs.Prelude.{◌≡◌, length, IfOk};
ghost use Rattle.crew_fixtures.specs.Sizes.{HasSizes};

use crate::asserts::{same, same_at};
use crew_fixtures::{FixtureFault, Job, far_builder, gate_task, is_plan_of, plan_of, team, visit};
use crew_instance::{Builder, Instance, TurnRoom};
use crew_terms::{Pair, PlanVerdict, Task, Team};
use node_limits::Limits;
use plan_check::{check_plan, check_plan_in, in_limits, tasks_of};
use std::alloc::Global;
use std::test::Fail;

/// A team of no skills, or two; and at the gates three tasks one after another, one that needs a skill, one that ends too
/// late, and one for two teams.
fn day_of(alloc: Global, teams: &[Team]) -> Result<Builder, FixtureFault>
    ensures { IfOk result
        (λ day. (length day.places ≡ 4) × (day.teams ≡ teams.now) × (length day.tasks ≡ 6)) }
{
    let tasks = [
        gate_task(b"A", 1, 420)?,
        gate_task(b"X", 2, 440)?,
        gate_task(b"C", 3, 460)?,
        Task {
            skills: 2,
            ..gate_task(b"SKILLED", 1, 500)?
        },
        gate_task(b"LATE", 1, 806)?,
        Task {
            teams: 2,
            ..gate_task(b"TWO", 1, 600)?
        },
    ];
    far_builder(alloc, teams, &tasks)
}

/// The day with one team.
fn day(alloc: Global) -> Result<Instance, FixtureFault>
    ensures { IfOk result (HasSizes 4 1 6) }
{
    Ok(day_of(alloc, &[team(b"T")?])?.finish()?)
}

/// The day with two teams, in which X is frozen, and the task for two teams.
fn frozen_day(alloc: Global) -> Result<Instance, FixtureFault> {
    let mut day = day_of(alloc, &[team(b"T")?, team(b"U")?])?;
    day.freeze(1, 440, &[0])?;
    day.freeze(5, 600, &[0, 1])?;
    Ok(day.finish()?)
}

/// The verdict on the plan with these jobs.
fn verdict(alloc: Global, day: &Instance, jobs: &[Job<'_>]) -> Result<PlanVerdict, Fail> {
    let plan = plan_of(alloc, 6, jobs)?;
    if !is_plan_of(day, &plan) {
        return Err("a plan of another day")?;
    }
    Ok(check_plan(day, &plan))
}

const ONE_AFTER_ANOTHER: [Job<'static>; 3] = [(2, 460, &[0]), (0, 420, &[0]), (1, 440, &[0])];

#[test]
fn a_task_between_makes_a_plan_legal(rt: HostRuntime) -> Result<(), Fail> {
    let day = day(rt.alloc())?;
    let all = verdict(rt.alloc(), &day, &ONE_AFTER_ANOTHER)?;
    same(&rt, &all, &PlanVerdict::Legal);
    let two = verdict(rt.alloc(), &day, &ONE_AFTER_ANOTHER[..2])?;
    same(&rt, &two, &PlanVerdict::Clash(0, 0, 2));
    Ok(())
}

/// A job, and the verdict on the plan that has no other.
const FAULTS: [(Job<'static>, PlanVerdict); 6] = [
    ((0, 421, &[0]), PlanVerdict::Window(0)),
    ((0, 420, &[]), PlanVerdict::Count(0)),
    ((5, 600, &[0, 0]), PlanVerdict::Count(5)),
    (
        (5, 600, &[0, 0, 0, 0, 0, 0, 0, 0, 0]),
        PlanVerdict::Count(5),
    ),
    ((3, 500, &[0]), PlanVerdict::Skill(0, 3)),
    ((4, 806, &[0]), PlanVerdict::Shift(0, 4)),
];

#[test]
fn tells_each_fault(rt: HostRuntime) -> Result<(), Fail> {
    let day = day(rt.alloc())?;
    for (job, fault) in FAULTS {
        same_at(&rt, &verdict(rt.alloc(), &day, &[job])?, &fault, &job);
    }
    Ok(())
}

#[test]
fn tells_the_same_in_room_that_is_kept(rt: HostRuntime) -> Result<(), Fail> {
    let alloc = rt.alloc();
    let day = day(alloc)?;
    let mut room = TurnRoom::new();
    for (count, told) in [
        (3, PlanVerdict::Legal),
        (2, PlanVerdict::Clash(0, 0, 2)),
        (1, PlanVerdict::Legal),
        (3, PlanVerdict::Legal),
    ] {
        let plan = plan_of(alloc, 6, &ONE_AFTER_ANOTHER[..count])?;
        if !is_plan_of(&day, &plan) {
            return Err("a plan of another day")?;
        }
        same_at(&rt, &check_plan_in(&day, &plan, &mut room), &told, &count);
    }
    Ok(())
}

const X: Job<'static> = (1, 440, &[0]);

const TWO: Job<'static> = (5, 600, &[0, 1]);

/// The first task a minute too late.
const OUTSIDE: Job<'static> = (0, 421, &[1]);

#[test]
fn takes_a_plan_with_the_frozen_jobs(rt: HostRuntime) -> Result<(), Fail> {
    let day = frozen_day(rt.alloc())?;
    let legal = PlanVerdict::Legal;
    same(&rt, &verdict(rt.alloc(), &day, &[X, TWO])?, &legal);
    let three = [X, TWO, (0, 420, [1].as_slice())];
    same(&rt, &verdict(rt.alloc(), &day, &three)?, &legal);
    Ok(())
}

#[test]
fn tells_other_faults_after_frozen_jobs(rt: HostRuntime) -> Result<(), Fail> {
    let day = frozen_day(rt.alloc())?;
    let told = verdict(rt.alloc(), &day, &[X, TWO, OUTSIDE])?;
    same(&rt, &told, &PlanVerdict::Window(0));
    Ok(())
}

/// Two jobs beside one outside its window, and the task whose frozen job the plan lacks first.
const UNKEPT: [(Job<'static>, Job<'static>, u32); 7] = [
    ((2, 460, &[0]), TWO, 1),
    ((1, 441, &[0]), TWO, 1),
    ((1, 440, &[1]), TWO, 1),
    ((1, 440, &[0, 1]), TWO, 1),
    ((1, 440, &[]), TWO, 1),
    (X, X, 5),
    (X, (5, 600, &[1]), 5),
];

#[test]
fn tells_a_frozen_job_first(rt: HostRuntime) -> Result<(), Fail> {
    let day = frozen_day(rt.alloc())?;
    for (first, second, task) in UNKEPT {
        let told = verdict(rt.alloc(), &day, &[OUTSIDE, first, second])?;
        same_at(&rt, &told, &PlanVerdict::Frozen(task), &(first, second));
    }
    Ok(())
}

#[test]
fn lists_what_a_team_does(rt: HostRuntime) -> Result<(), Fail> {
    let jobs: [Job<'_>; 4] = [
        (0, 440, &[1]),
        (3, 420, &[0, 1]),
        (1, 440, &[1]),
        (2, 400, &[0]),
    ];
    let plan = plan_of(rt.alloc(), 6, &jobs)?;
    let visits = tasks_of(rt.alloc(), &plan, 1)?;
    let wanted = [visit(3, 420), visit(0, 440), visit(1, 440)];
    same(&rt, &visits.as_slice(), &wanted.as_slice());
    Ok(())
}

/// Whether the plan with these jobs is within the limits of a node in which the team doesn't do task 1 and does task 2.
fn is_in_node(alloc: Global, jobs: &[Job<'_>]) -> Result<bool, Fail> {
    let day = day(alloc)?;
    let plan = plan_of(alloc, 6, jobs)?;
    let mut limits = Limits::root(alloc, &day)?;
    limits.reserve(2)?;
    if limits.pair(0, 1) != Pair::Free {
        return Err("a pair that is free")?;
    }
    limits.set_pair(0, 1, Pair::Forbidden);
    if limits.pair(0, 2) != Pair::Free || !is_plan_of(&day, &plan) {
        return Err("a pair that is free, and a plan of the day")?;
    }
    limits.set_pair(0, 2, Pair::Required);
    Ok(in_limits(&limits, &plan))
}

const AT_NODE: [(&[Job<'static>], bool); 5] = [
    (&[(2, 460, &[0]), (0, 420, &[])], true),
    (&[(2, 460, &[0]), (0, 421, &[])], false),
    (&[(2, 460, &[0]), (0, 419, &[])], false),
    (&[(2, 460, &[0]), (1, 440, &[0])], false),
    (&[(0, 420, &[0])], false),
];

#[test]
fn tells_what_is_within_a_node(rt: HostRuntime) -> Result<(), Fail> {
    for (jobs, wanted) in AT_NODE {
        same_at(&rt, &is_in_node(rt.alloc(), jobs)?, &wanted, &jobs);
    }
    Ok(())
}
