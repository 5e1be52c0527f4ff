// What frozen work forbids, record by record.
use crate::alike::are_same;
use crate::asserts::{same, same_at};
use crate::given::{answer, give};
use crew_fixtures::{Shown, frozen_at, name};
use crew_instance::Instance;
use flight_changes::{ChangeFault, Desk, PlannedJobs};
use plan_builder::greedy;
use std::alloc::Global;
use std::process::Abort;
use std::test::Fail;

/// Two places ten minutes apart and one twelve minutes from both, and the task A, which the team T1 alone can do; it comes
/// there from the third place.
const DAY: &[&[u8]] = &[
    b"place,BASE",
    b"place,G1",
    b"place,G2",
    b"travel,BASE,G1,10",
    b"default_travel,12",
    b"team,T1,G2,06:00,14:00,1",
    b"team,T2,BASE,06:00,14:00,",
    b"task,A,G1,07:00,07:00,30,1,1",
    b"task,B,BASE,09:00,09:00,30,1,",
];

/// Plans the day of the desk.
fn plan(alloc: Global, desk: &mut Desk) -> Result<(), Fail> {
    let instance = desk.instance()?;
    let plan = greedy(alloc, &instance)?;
    let jobs = PlannedJobs::of(alloc, &instance, &plan)?;
    desk.planned(jobs);
    Ok(())
}

/// A desk on which A has begun, by T1 at 07:00.
fn begun(alloc: Global) -> Result<Desk, Fail> {
    let mut desk = Desk::new(alloc);
    give(alloc, &mut desk, DAY)?;
    plan(alloc, &mut desk)?;
    give(alloc, &mut desk, &[b"now,08:00"])?;
    Ok(desk)
}

/// The start and the first team of the frozen job of the task, if it has one.
fn frozen(instance: &Instance, task: u32) -> Option<(u32, Option<u32>)> {
    let (start, teams) = frozen_at(instance, task).flatten()?;
    Some((start, teams.first().copied()))
}

#[test]
fn freezes_what_begins_before(rt: HostRuntime) -> Result<(), Fail> {
    let desk = begun(rt.alloc())?;
    let instance = desk.instance()?;
    same(&rt, &frozen(&instance, 0), &Some((420, Some(0))));
    same(&rt, &frozen(&instance, 1), &None);
    Ok(())
}

/// Each record that A forbids. Where a condition of its kind holds, it is told before.
const FORBIDDEN: [&[u8]; 11] = [
    b"cancel,A",
    b"sick,T1",
    b"move,A,07:01,07:30",
    b"longer,A,409",
    b"needs,A,2",
    b"shift,T1,06:49,14:00",
    b"shift,T1,06:00,07:41",
    b"unskill,T1,1",
    b"travel,G2,G1,61",
    b"route_time,G1,G2,391",
    b"default_travel,61",
];

/// Each record that has another fault, which is told first.
const FAULTY: [(&[u8], ChangeFault); 4] = [
    (b"move,A,07:10,07:05", ChangeFault::BadWindow),
    (b"needs,A,9", ChangeFault::BadTeams),
    (b"shift,T1,06:40,06:40", ChangeFault::BadShift),
    (b"thaw,C", ChangeFault::NoTask),
];

/// Records that touch A or T1, and are taken.
const TAKEN: &[&[u8]] = &[
    b"place,G3",
    b"team,T3,G3,06:00,14:00,",
    b"task,C,G3,07:00,07:30,30,1,",
    b"move,A,06:30,07:00",
    b"longer,A,408",
    b"longer,A,394",
    b"shift,T1,06:48,13:46",
    b"skill,T1,2",
    b"route_time,BASE,G1,61",
    b"sick,T2",
    b"cancel,B",
    b"now,08:00",
    b"plan,1",
    b"thaw,C",
];

/// Asserts that the desk refuses the record so, and gives the same instance after it.
fn refuses(
    rt: &impl Abort,
    alloc: Global,
    desk: &mut Desk,
    record: &[u8],
    fault: ChangeFault,
) -> Result<(), Fail> {
    let before = desk.instance()?;
    let told = answer(alloc, desk, record)?;
    same_at(rt, &told, &Err(fault), &Shown(record));
    same_at(
        rt,
        &are_same(&before, &desk.instance()?),
        &true,
        &Shown(record),
    );
    Ok(())
}

fn refuses_all(rt: &impl Abort, alloc: Global, desk: &mut Desk) -> Result<(), Fail> {
    let fault = ChangeFault::FrozenWork { task: name(b"A")? };
    for record in &FORBIDDEN {
        refuses(rt, alloc, desk, record, fault)?;
    }
    for (record, fault) in &FAULTY {
        refuses(rt, alloc, desk, record, *fault)?;
    }
    Ok(())
}

#[test]
fn forbids_what_it_needs(rt: HostRuntime) -> Result<(), Fail> {
    let mut desk = begun(rt.alloc())?;
    refuses_all(&rt, rt.alloc(), &mut desk)?;
    keeps_the_last_plan(&rt, rt.alloc(), &mut desk)
}

/// Asserts that the last plan still has A: thawed, it can be frozen again.
fn keeps_the_last_plan(rt: &impl Abort, alloc: Global, desk: &mut Desk) -> Result<(), Fail> {
    gives(rt, alloc, desk, &[b"thaw,A"], false)?;
    gives(rt, alloc, desk, &[b"now,08:00"], true)
}

/// Three tasks at different gates, of which X makes the long way from A to C short.
const GATES: &[&[u8]] = &[
    b"place,BASE",
    b"place,G1",
    b"place,G2",
    b"place,G3",
    b"default_travel,10",
    b"route_time,G1,G3,60",
    b"team,T1,BASE,06:00,14:00,",
    b"task,A,G1,07:00,07:00,10,1,",
    b"task,C,G3,07:40,07:40,10,1,",
    b"task,X,G2,07:20,07:20,10,1,",
];

/// A desk on which all three have begun.
fn gates(alloc: Global) -> Result<Desk, Fail> {
    let mut desk = Desk::new(alloc);
    give(alloc, &mut desk, GATES)?;
    plan(alloc, &mut desk)?;
    give(alloc, &mut desk, &[b"now,08:00"])?;
    Ok(desk)
}

#[test]
fn forbids_to_thaw_what_others_need(rt: HostRuntime) -> Result<(), Fail> {
    let fault = ChangeFault::FrozenWork { task: name(b"A")? };
    let mut desk = gates(rt.alloc())?;
    refuses(&rt, rt.alloc(), &mut desk, b"thaw,X", fault)
}

/// Two tasks, of which the first begins later.
const LATER_FIRST: &[&[u8]] = &[
    b"place,BASE",
    b"team,T1,BASE,06:00,14:00,",
    b"task,A,BASE,08:00,08:00,10,1,",
    b"task,C,BASE,07:00,07:00,10,1,",
];

#[test]
fn sick_names_the_first_task_by_number(rt: HostRuntime) -> Result<(), Fail> {
    let fault = ChangeFault::FrozenWork { task: name(b"A")? };
    let mut desk = Desk::new(rt.alloc());
    give(rt.alloc(), &mut desk, LATER_FIRST)?;
    plan(rt.alloc(), &mut desk)?;
    give(rt.alloc(), &mut desk, &[b"now,10:00"])?;
    refuses(&rt, rt.alloc(), &mut desk, b"sick,T1", fault)
}

#[test]
fn takes_what_leaves_it_possible(rt: HostRuntime) -> Result<(), Fail> {
    let mut desk = begun(rt.alloc())?;
    give(rt.alloc(), &mut desk, TAKEN)?;
    same(&rt, &frozen(&desk.instance()?, 0), &Some((420, Some(0))));
    Ok(())
}

/// Gives the desk records, all of which it takes, and asserts whether A is frozen behind them.
fn gives(
    rt: &impl Abort,
    alloc: Global,
    desk: &mut Desk,
    records: &[&[u8]],
    is_frozen: bool,
) -> Result<(), Fail> {
    give(alloc, desk, records)?;
    let instance = desk.instance()?;
    same(rt, &frozen(&instance, 0).is_some(), &is_frozen);
    Ok(())
}

/// The last plan still has what is thawed, until the task or the team is gone.
fn thaws_and_freezes(rt: &impl Abort, alloc: Global, desk: &mut Desk) -> Result<(), Fail> {
    gives(rt, alloc, desk, &[b"thaw,A"], false)?;
    gives(rt, alloc, desk, &[b"now,07:00"], false)?;
    gives(rt, alloc, desk, &[b"now,07:01"], true)?;
    gives(
        rt,
        alloc,
        desk,
        &[b"thaw,A", b"sick,T1", b"now,08:00"],
        false,
    )
}

#[test]
fn thawed_and_frozen_again(rt: HostRuntime) -> Result<(), Fail> {
    let mut desk = begun(rt.alloc())?;
    thaws_and_freezes(&rt, rt.alloc(), &mut desk)
}
