// Generated days. What is compared was worked out from the generator's published definition, and not by this program.
ghost use Rattle.std.specs.Prelude.{◌≡◌, ◌≤◌, [], All, IfErr, IfOk, OnOk, fold};
ghost use Rattle.crew_terms.specs.declared.TheConstants.{MOST_NODES, MOST_TASKS, MOST_TEAMS};
ghost use Rattle.day_gen.specs.Day.{generated_day};
ghost use Rattle.day_terms.specs.Ranges.{IsInRange};
ghost use Rattle.day_terms.specs.Refusal.{AreTaken};
ghost use Rattle.day_terms.specs.Instances.{day_instance};
ghost use Rattle.day_terms.specs.Entries.{after_entry, state_after};

use crew_instance::Instance;
use crew_terms::Name;
use day_gen::{Entry, generated_days_are_taken, make};
use day_records::read_day;
use flight_changes::{ChangeFault, Desk};
use std::alloc::Global;
use std::test::Fail;

fn name(bytes: &[u8]) -> Result<Name, Fail> {
    Ok(Name::read(bytes).ok_or("name")?)
}

fn place(bytes: &[u8]) -> Result<Entry, Fail> {
    Ok(Entry::Place { name: name(bytes)? })
}

/// The day with the number 7, of 8 teams and 40 tasks, with a budget of 20 nodes.
fn day(alloc: Global) -> Result<Vec<Entry>, Fail>
    ensures { IfOk result (λ day. All IsInRange day.items) }
{
    Ok(make(alloc, 7, 8, 40, 20)?)
}

#[test]
fn places_stand_first(rt: HostRuntime) -> Result<(), Fail> {
    let day = day(rt.alloc())?;
    let names = [b"P0", b"P1", b"P2", b"P3", b"P4", b"P5"];
    for (n, name) in names.iter().enumerate() {
        assert_eq!(rt; day.get(n).copied(), Some(place(*name)?));
    }
    Ok(())
}

#[test]
fn first_team_and_first_task_are_drawn(rt: HostRuntime) -> Result<(), Fail> {
    let day = day(rt.alloc())?;
    let team = Entry::Team {
        name: name(b"T0")?,
        home: name(b"P0")?,
        from: 540,
        until: 1020,
        skills: 0b11,
    };
    let task = Entry::Task {
        name: name(b"J0")?,
        place: name(b"P5")?,
        earliest: 712,
        latest: 757,
        minutes: 27,
        teams: 1,
        skills: 0b1,
    };
    assert_eq!(rt; day.get(21).copied(), Some(team));
    assert_eq!(rt; day.get(29).copied(), Some(task));
    Ok(())
}

#[test]
fn made_twice_is_the_same(rt: HostRuntime) -> Result<(), Fail> {
    let first = day(rt.alloc())?;
    let second = day(rt.alloc())?;
    assert_eq!(rt; first.len(), 70);
    assert_eq!(rt; first.as_slice(), second.as_slice());
    Ok(())
}

/// What bench/generated_day prints for 7 2 3 20.
const TEXT: &[u8] = b"place,P0
place,P1
place,P2
place,P3
place,P4
place,P5
travel,P0,P1,7
travel,P0,P2,10
travel,P0,P3,8
travel,P0,P4,13
travel,P0,P5,10
travel,P1,P2,9
travel,P1,P3,7
travel,P1,P4,13
travel,P1,P5,9
travel,P2,P3,14
travel,P2,P4,6
travel,P2,P5,5
travel,P3,P4,13
travel,P3,P5,7
travel,P4,P5,9
team,T0,P0,09:00,17:00,0 1
team,T1,P0,09:00,17:00,1 2
task,J0,P5,06:35,07:20,23,1,2
task,J1,P0,07:53,08:39,27,2,
task,J2,P3,11:55,12:44,43,1,2
plan,20
";

#[test]
fn is_what_its_text_says(rt: HostRuntime) -> Result<(), Fail> {
    let made = make(rt.alloc(), 7, 2, 3, 20)?;
    let read = read_day(rt.alloc(), TEXT)?;
    assert_eq!(rt; read.stop, None);
    assert_eq!(rt; made.as_slice(), read.entries.as_slice());
    Ok(())
}

/// Puts entries on a desk that takes them all: only memory can be wanting.
#[tactic(auto, using(crate::proofs::Taken::next_is_taken, crate::proofs::Taken::next_state))]
fn put_all(desk: &mut Desk, entries: &[Entry]) -> Result<(), ChangeFault>
    requires ranges { All IsInRange entries.now }
    requires taken { AreTaken desk.old entries.now }
    ensures state { OnOk result (desk.new ≡ fold after_entry desk.old entries.now) }
    ensures err { IfErr result (λ fault. fault ≡ ChangeFault.OutOfMemory) }
{
    for entry in entries {
        desk.apply(entry)?;
    }
    Ok(())
}

/// The instance of a generated day. By the law of generated days a new desk takes each entry and lacks no time: only memory
/// can be wanting.
fn instance_of(
    alloc: Global,
    number: u64,
    teams: u32,
    tasks: u32,
    nodes: u32,
) -> Result<Instance, ChangeFault>
    requires teams { teams ≤ MOST_TEAMS }
    requires tasks { tasks ≤ MOST_TASKS }
    requires nodes { nodes ≤ MOST_NODES }
    ensures instance { IfOk result (λ instance. instance ≡
        day_instance (state_after [] (generated_day number teams tasks nodes))) }
    ensures err { IfErr result (λ fault. fault ≡ ChangeFault.OutOfMemory) }
{
    generated_days_are_taken();
    let entries = make(alloc, number, teams, tasks, nodes)?;
    let mut desk = Desk::new(alloc);
    put_all(&mut desk, &entries)?;
    desk.instance()
}

#[test]
fn desk_takes_each_day(rt: HostRuntime) -> Result<(), Fail> {
    for (teams, tasks) in [(8, 40), (0, 0), (64, 400)] {
        let instance = instance_of(rt.alloc(), 7, teams, tasks, 20)?;
        assert_eq!(rt; instance.places(), 6);
        assert_eq!(rt; instance.teams(), teams as usize);
        assert_eq!(rt; instance.tasks(), tasks as usize);
    }
    Ok(())
}
