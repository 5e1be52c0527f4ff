// What is written of open tasks.
use crate::asserts::same;
use crew_fixtures::{
    gate_instance, is_plan_of, lacking_skill, one_task, plan_of, task, team, two_at_once,
};
use crew_instance::{Instance, Plan};
use crew_io::sink::MemSink;
use crew_terms::{PlanVerdict, Task, Team};
use plan_check::check_plan;
use std::alloc::Global;
use std::process::Abort;
use std::test::Fail;
use why_not::why;

/// What is written of a plan, in as many bytes as there is room for, and whether all of it was written.
fn put(
    alloc: Global,
    room: usize,
    instance: &Instance,
    plan: &Plan,
) -> Result<(MemSink, bool), Fail> {
    let mut sink = MemSink::new(alloc, room, 16, Vec::new(alloc))?;
    if !is_plan_of(instance, plan) {
        return Err(Fail::new("no plan of the instance"));
    }
    let PlanVerdict::Legal = check_plan(instance, plan) else {
        return Err(Fail::new("not legal"));
    };
    let whole = why(&mut sink, instance, plan).is_ok();
    Ok((sink, whole))
}

/// Asserts that this is written of a plan.
fn tells(
    rt: &impl Abort,
    alloc: Global,
    instance: &Instance,
    plan: &Plan,
    text: &[u8],
) -> Result<(), Fail> {
    let (sink, whole) = put(alloc, 512, instance, plan)?;
    same(rt, &whole, &true);
    same(rt, &sink.got(), &text);
    Ok(())
}

const ONE_BUSY: &[u8] = b"why 1 2
open B 1
  07:00 07:00 free 0 T1=busy:A
  none fits
";

#[test]
fn the_team_is_busy(rt: HostRuntime) -> Result<(), Fail> {
    let instance = two_at_once(rt.alloc())?;
    let plan = plan_of(rt.alloc(), 2, &[(0, 420, &[0])])?;
    tells(&rt, rt.alloc(), &instance, &plan, ONE_BUSY)
}

#[test]
fn a_skill_is_missing(rt: HostRuntime) -> Result<(), Fail> {
    let instance = lacking_skill(rt.alloc())?;
    let plan = plan_of(rt.alloc(), 1, &[])?;
    let text = b"why 1 1
open J 2
  07:00 07:00 free 1 T1=free T2=skill
  none fits
";
    tells(&rt, rt.alloc(), &instance, &plan, text)
}

#[test]
fn a_task_fits(rt: HostRuntime) -> Result<(), Fail> {
    let instance = one_task(rt.alloc())?;
    let plan = plan_of(rt.alloc(), 1, &[])?;
    let text = b"why 1 1
open A 1
  07:00 07:30 free 1 T1=free
  fits 07:00
";
    tells(&rt, rt.alloc(), &instance, &plan, text)
}

/// A task of three teams, of which one lacks its skill.
fn third_lacks_skill(alloc: Global) -> Result<Instance, Fail> {
    let skills = 1 << 3;
    let first = Team {
        skills,
        ..team(b"T1")?
    };
    let second = Team {
        skills,
        ..team(b"T2")?
    };
    let joint = Task {
        latest: 420,
        teams: 3,
        skills,
        ..task(b"J")?
    };
    Ok(gate_instance(alloc, &[first, second, team(b"T3")?], &[joint])?)
}

#[test]
fn two_of_three_are_free(rt: HostRuntime) -> Result<(), Fail> {
    let instance = third_lacks_skill(rt.alloc())?;
    let plan = plan_of(rt.alloc(), 1, &[])?;
    let text = b"why 1 1
open J 3
  07:00 07:00 free 2 T1=free T2=free T3=skill
  none fits
";
    tells(&rt, rt.alloc(), &instance, &plan, text)
}

/// One team all day, and tasks at the day's first and at its last minute.
fn at_the_ends(alloc: Global) -> Result<Instance, Fail> {
    let all_day = Team {
        from: 0,
        until: 2880,
        ..team(b"T1")?
    };
    let first = Task {
        earliest: 0,
        latest: 0,
        ..task(b"A")?
    };
    let last = Task {
        earliest: 2880,
        latest: 2880,
        ..task(b"B")?
    };
    Ok(gate_instance(alloc, &[all_day], &[first, last])?)
}

#[test]
fn no_shift_reaches_the_ends(rt: HostRuntime) -> Result<(), Fail> {
    let instance = at_the_ends(rt.alloc())?;
    let plan = plan_of(rt.alloc(), 2, &[])?;
    let text = b"why 2 2
open A 1
  00:00 00:00 free 0 T1=shift
  none fits
open B 1
  48:00 48:00 free 0 T1=shift
  none fits
";
    tells(&rt, rt.alloc(), &instance, &plan, text)
}

#[test]
fn no_team_is_qualified(rt: HostRuntime) -> Result<(), Fail> {
    let skilled = Task {
        skills: 1,
        ..task(b"A")?
    };
    let instance = gate_instance(rt.alloc(), &[team(b"T1")?], &[skilled])?;
    let plan = plan_of(rt.alloc(), 1, &[])?;
    let text = b"why 1 1
open A 1
  07:00 07:30 free 0 T1=skill
  none fits
";
    tells(&rt, rt.alloc(), &instance, &plan, text)
}

/// One team, a task at 07:00, and one from 06:00 to 08:00.
fn around_a_task(alloc: Global) -> Result<Instance, Fail> {
    let first = Task {
        latest: 420,
        ..task(b"A")?
    };
    let wide = Task {
        earliest: 360,
        latest: 480,
        ..task(b"B")?
    };
    Ok(gate_instance(alloc, &[team(b"T1")?], &[first, wide])?)
}

#[test]
fn runs_are_longest(rt: HostRuntime) -> Result<(), Fail> {
    let instance = around_a_task(rt.alloc())?;
    let plan = plan_of(rt.alloc(), 2, &[(0, 420, &[0])])?;
    let text = b"why 1 2
open B 1
  06:00 06:09 free 0 T1=shift
  06:10 06:30 free 1 T1=free
  06:31 07:29 free 0 T1=busy:A
  07:30 08:00 free 1 T1=free
  fits 06:10
";
    tells(&rt, rt.alloc(), &instance, &plan, text)
}

#[test]
fn nothing_is_open(rt: HostRuntime) -> Result<(), Fail> {
    let instance = one_task(rt.alloc())?;
    let plan = plan_of(rt.alloc(), 1, &[(0, 430, &[0])])?;
    tells(&rt, rt.alloc(), &instance, &plan, b"why 0 1\n")
}

#[test]
fn fault_leaves_a_front(rt: HostRuntime) -> Result<(), Fail> {
    let instance = two_at_once(rt.alloc())?;
    let plan = plan_of(rt.alloc(), 2, &[(0, 420, &[0])])?;
    let (sink, whole) = put(rt.alloc(), 40, &instance, &plan)?;
    same(&rt, &whole, &false);
    same(&rt, &sink.got(), &&ONE_BUSY[..40]);
    Ok(())
}
