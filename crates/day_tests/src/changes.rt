// What a day becomes, entry by entry.
use crate::asserts::{same, same_at};
use crate::given::{SMALL_DAY, answer, give};
use crew_fixtures::{minutes_between, name, task_at, team_at};
use crew_terms::{Task, Team};
use flight_changes::{ChangeFault, Desk};
use std::alloc::Global;
use std::process::Abort;
use std::test::Fail;

/// Asserts that the desk lacks the time from the one place to the other, for `plan`, for `now` and for an instance.
fn lacks(
    rt: &impl Abort,
    alloc: Global,
    desk: &mut Desk,
    from: &[u8],
    to: &[u8],
) -> Result<(), Fail> {
    let fault = ChangeFault::MissingTravel {
        from: name(from)?,
        to: name(to)?,
    };
    same(rt, &answer(alloc, desk, b"plan,1")?, &Err(fault));
    same(rt, &answer(alloc, desk, b"now,07:00")?, &Err(fault));
    same(rt, &desk.instance().err(), &Some(fault));
    Ok(())
}

/// Asserts these travel times.
fn assert_times(rt: &impl Abort, desk: &Desk, times: &[(u32, u32, u32)]) -> Result<(), Fail> {
    let built = desk.instance()?;
    for (from, to, minutes) in times {
        let told = minutes_between(&built, *from, *to);
        same_at(rt, &told, &Some(*minutes), &(from, to));
    }
    Ok(())
}

fn lacks_times(rt: &impl Abort, alloc: Global, desk: &mut Desk) -> Result<(), Fail> {
    give(
        alloc,
        desk,
        &[b"place,BASE", b"place,G1", b"team,T1,BASE,06:00,14:00,"],
    )?;
    give(alloc, desk, &[b"task,A,G1,07:00,07:30,30,1,"])?;
    lacks(rt, alloc, desk, b"BASE", b"G1")?;
    give(alloc, desk, &[b"route_time,BASE,G1,10"])?;
    lacks(rt, alloc, desk, b"G1", b"BASE")?;
    give(alloc, desk, &[b"default_travel,12", b"place,G2", b"plan,1"])?;
    assert_times(rt, desk, &[(0, 1, 10), (1, 0, 12), (0, 2, 12), (2, 2, 0)])
}

#[test]
fn tells_the_missing_time(rt: HostRuntime) -> Result<(), Fail> {
    let mut desk = Desk::new(rt.alloc());
    lacks_times(&rt, rt.alloc(), &mut desk)?;
    same(&rt, &desk.instance()?.places(), &3);
    Ok(())
}

/// Asserts that this is the only task.
fn assert_only_task(rt: &impl Abort, desk: &Desk, task: Task) -> Result<(), Fail> {
    let built = desk.instance()?;
    same(rt, &built.tasks(), &1);
    same(rt, &task_at(&built, 0), &Some(task));
    Ok(())
}

fn moves_down(rt: &impl Abort, alloc: Global, desk: &mut Desk) -> Result<(), Fail> {
    give(alloc, desk, SMALL_DAY)?;
    give(
        alloc,
        desk,
        &[b"plan,1", b"cancel,A", b"move,B,07:00,08:00"],
    )?;
    let moved = Task {
        name: name(b"B")?,
        place: 1,
        earliest: 420,
        latest: 480,
        minutes: 30,
        teams: 1,
        skills: 0,
    };
    assert_only_task(rt, desk, moved)?;
    same(
        rt,
        &answer(alloc, desk, b"cancel,A")?,
        &Err(ChangeFault::NoTask),
    );
    assert_only_task(rt, desk, moved)
}

#[test]
fn moves_down_what_is_left(rt: HostRuntime) -> Result<(), Fail> {
    let mut desk = Desk::new(rt.alloc());
    moves_down(&rt, rt.alloc(), &mut desk)
}

/// Gives a second and a third team, and the second again after it was sick.
fn bring_team_back(alloc: Global, desk: &mut Desk) -> Result<(), Fail> {
    give(alloc, desk, SMALL_DAY)?;
    give(
        alloc,
        desk,
        &[b"team,T2,G1,06:00,14:00,", b"team,T3,BASE,06:00,14:00,"],
    )?;
    give(alloc, desk, &[b"sick,T2", b"team,T2,G1,06:40,15:00,"])
}

fn puts_team_last(rt: &impl Abort, alloc: Global, desk: &mut Desk) -> Result<(), Fail> {
    bring_team_back(alloc, desk)?;
    let back = Team {
        name: name(b"T2")?,
        home: 1,
        from: 400,
        until: 900,
        skills: 0,
    };
    let built = desk.instance()?;
    same(rt, &built.teams(), &3);
    same(
        rt,
        &team_at(&built, 0).map(|team| team.name),
        &Some(name(b"T1")?),
    );
    same(
        rt,
        &team_at(&built, 1).map(|team| team.name),
        &Some(name(b"T3")?),
    );
    same(rt, &team_at(&built, 2), &Some(back));
    Ok(())
}

#[test]
fn puts_a_team_that_is_back_last(rt: HostRuntime) -> Result<(), Fail> {
    let mut desk = Desk::new(rt.alloc());
    puts_team_last(&rt, rt.alloc(), &mut desk)
}

/// Changes task A, the shift and the skills of team T1, and the time of the way back.
const CHANGES: &[&[u8]] = &[
    b"longer,A,45",
    b"needs,A,2",
    b"shift,T1,05:00,15:00",
    b"route_time,G1,BASE,7",
    b"skill,T1,3",
    b"skill,T1,63",
    b"skill,T1,3",
    b"unskill,T1,3",
    b"unskill,T1,5",
];

fn changes_fields(rt: &impl Abort, alloc: Global, desk: &mut Desk) -> Result<(), Fail> {
    give(alloc, desk, SMALL_DAY)?;
    give(alloc, desk, CHANGES)?;
    let built = desk.instance()?;
    same(
        rt,
        &(built.places(), built.teams(), built.tasks()),
        &(2, 1, 2),
    );
    for (j, wanted) in [(0, (45, 2)), (1, (30, 1))] {
        let told = task_at(&built, j).map(|task| (task.minutes, task.teams));
        same_at(rt, &told, &Some(wanted), &j);
    }
    let told = team_at(&built, 0).map(|team| (team.from, team.until, team.skills));
    same(rt, &told, &Some((300, 900, 1 << 63)));
    assert_times(rt, desk, &[(0, 1, 10), (1, 0, 7)])
}

#[test]
fn changes_each_field(rt: HostRuntime) -> Result<(), Fail> {
    let mut desk = Desk::new(rt.alloc());
    changes_fields(&rt, rt.alloc(), &mut desk)
}
