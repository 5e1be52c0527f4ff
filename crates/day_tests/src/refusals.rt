// Each refusal of each kind of entry.
ghost use Rattle.day_terms.specs.Ranges.{IsInRange};

use crate::alike::are_same;
use crate::asserts::{same, same_at};
use crate::given::{SMALL_DAY, answer, give};
use crew_fixtures::{Shown, numbered};
use day_terms::Entry;
use flight_changes::{ChangeFault, Desk};
use std::alloc::Global;
use std::process::Abort;
use std::test::Fail;

/// A record that a day refuses, and why.
type Cell = (&'static [u8], ChangeFault);

/// What the small day refuses of places, teams and tasks. Where a record could be refused for more than one reason, the
/// later ones hold too.
const NEW_ONES: [Cell; 15] = [
    (b"place,G1", ChangeFault::SameName),
    (b"travel,X,G1,5", ChangeFault::NoPlace),
    (b"travel,G1,X,5", ChangeFault::NoPlace),
    (b"route_time,X,G1,5", ChangeFault::NoPlace),
    (b"route_time,G1,X,5", ChangeFault::NoPlace),
    (b"team,T1,X,00:09,00:09,", ChangeFault::SameName),
    (b"team,T2,X,00:09,00:09,", ChangeFault::NoPlace),
    (b"team,T2,G1,00:09,00:09,", ChangeFault::BadShift),
    (b"task,A,X,00:09,00:08,30,0,", ChangeFault::SameName),
    (b"task,C,X,00:09,00:08,30,0,", ChangeFault::NoPlace),
    (b"task,C,G1,00:09,00:08,30,0,", ChangeFault::BadWindow),
    (b"task,C,G1,00:09,12:10,30,9,", ChangeFault::BadWindow),
    (b"task,C,G1,07:30,07:00,30,1,", ChangeFault::BadWindow),
    (b"task,C,G1,00:09,12:09,30,0,", ChangeFault::BadTeams),
    (b"task,C,G1,00:09,00:09,30,9,", ChangeFault::BadTeams),
];

/// The same of the changes of a task or a team.
const CHANGES: [Cell; 14] = [
    (b"cancel,T1", ChangeFault::NoTask),
    (b"move,T1,00:09,00:08", ChangeFault::NoTask),
    (b"move,A,07:10,07:05", ChangeFault::BadWindow),
    (b"move,A,06:40,18:41", ChangeFault::BadWindow),
    (b"longer,T1,45", ChangeFault::NoTask),
    (b"needs,T1,0", ChangeFault::NoTask),
    (b"needs,A,0", ChangeFault::BadTeams),
    (b"needs,A,9", ChangeFault::BadTeams),
    (b"sick,A", ChangeFault::NoTeam),
    (b"shift,A,00:09,00:09", ChangeFault::NoTeam),
    (b"shift,T1,06:40,06:40", ChangeFault::BadShift),
    (b"skill,A,63", ChangeFault::NoTeam),
    (b"unskill,A,63", ChangeFault::NoTeam),
    (b"thaw,T1", ChangeFault::NoTask),
];

/// What a full day refuses, for want of a place for one more.
const FULL: [Cell; 6] = [
    (b"place,X", ChangeFault::TooMany),
    (b"place,000", ChangeFault::TooMany),
    (b"team,T1,X,00:09,00:09,", ChangeFault::TooMany),
    (b"team,000,X,00:09,00:09,", ChangeFault::TooMany),
    (b"task,A,X,00:09,00:08,30,0,", ChangeFault::TooMany),
    (b"task,000,X,00:09,00:08,30,0,", ChangeFault::TooMany),
];

/// Asserts that the desk refuses each record so, and gives the same instance after all of them.
fn refuses(rt: &impl Abort, alloc: Global, desk: &mut Desk, cells: &[Cell]) -> Result<(), Fail> {
    let before = desk.instance()?;
    for (record, fault) in cells {
        let told = answer(alloc, desk, record)?;
        same_at(rt, &told, &Err(*fault), &Shown(record));
    }
    same(rt, &are_same(&before, &desk.instance()?), &true);
    Ok(())
}

/// The same after each of them.
fn refuses_each(
    rt: &impl Abort,
    alloc: Global,
    desk: &mut Desk,
    cells: &[Cell],
) -> Result<(), Fail> {
    for n in 0..cells.len() {
        refuses(rt, alloc, desk, &cells[n..n + 1])?;
    }
    Ok(())
}

#[test]
fn refuses_each_cell(rt: HostRuntime) -> Result<(), Fail> {
    let mut desk = Desk::new(rt.alloc());
    give(rt.alloc(), &mut desk, SMALL_DAY)?;
    refuses_each(&rt, rt.alloc(), &mut desk, &NEW_ONES)?;
    refuses_each(&rt, rt.alloc(), &mut desk, &CHANGES)
}

/// Gives an entry that is taken.
fn change(desk: &mut Desk, entry: Entry) -> Result<(), Fail>
    requires { IsInRange entry }
{
    desk.apply(&entry)?;
    Ok(())
}

/// Gives 64 teams, each at the place of its name.
fn fill_teams(desk: &mut Desk) -> Result<(), Fail> {
    for n in 0..64 {
        let name = numbered(n)?;
        let team = Entry::Team {
            name,
            home: name,
            from: 360,
            until: 840,
            skills: 0,
        };
        change(desk, team)?;
    }
    Ok(())
}

/// Gives 400 tasks.
fn fill_tasks(desk: &mut Desk) -> Result<(), Fail> {
    for n in 0..400 {
        let task = Entry::Task {
            name: numbered(n)?,
            place: numbered(n / 2)?,
            earliest: 420,
            latest: 450,
            minutes: 30,
            teams: 1,
            skills: 0,
        };
        change(desk, task)?;
    }
    Ok(())
}

/// Gives 200 places, 64 teams and 400 tasks.
fn fill_day(desk: &mut Desk) -> Result<(), Fail> {
    change(desk, Entry::DefaultTravel { minutes: 10 })?;
    for n in 0..200 {
        change(desk, Entry::Place { name: numbered(n)? })?;
    }
    fill_teams(desk)?;
    fill_tasks(desk)
}

#[test]
fn refuses_each_cell_when_full(rt: HostRuntime) -> Result<(), Fail> {
    let mut desk = Desk::new(rt.alloc());
    fill_day(&mut desk)?;
    refuses(&rt, rt.alloc(), &mut desk, &FULL)
}
