// The entries of a generated day.
ghost use Rattle.std.specs.Prelude.{◌≡◌, ◌≤◌, ◌<◌, ◌*◌, ◌++◌, ◌^◌, ◌==◌, OnOk, IfOk, All, if◌then◌else◌};
ghost use Rattle.crew_terms.specs.declared.TheConstants.{MOST_NODES, MOST_TASKS, MOST_TEAMS};
ghost use Rattle.day_terms.specs.Ranges.{IsInRange};
ghost use Rattle.day_terms.specs.State.{start};
ghost use Rattle.day_terms.specs.Refusal.{AreTaken};
ghost use Rattle.day_gen.specs.Draws.{draw, after};
ghost use Rattle.day_gen.specs.Day.{generated_day, place_entries, place_name, task_draws, task_entries, task_entry, team_entries, team_entry, travel_entries, ways};

use crate::draws::{draw, generator_of, numbered};
use crate::laws::generated_days_are_taken;
use crew_terms::{MOST_NODES, MOST_TASKS, MOST_TEAMS, Name};
use day_terms::Entry;
use rand_pcg::Lcg64Xsh32;
use std::alloc::{AllocError, Global};

/// How many places a day has.
const PLACES: u32 = 6;

/// Each two places, by the first and then by the second.
const WAYS: [(u32, u32); 15] = [
    (0, 1),
    (0, 2),
    (0, 3),
    (0, 4),
    (0, 5),
    (1, 2),
    (1, 3),
    (1, 4),
    (1, 5),
    (2, 3),
    (2, 4),
    (2, 5),
    (3, 4),
    (3, 5),
    (4, 5),
];

/// The first skills, which are all that a day knows.
const SKILLS: u32 = 3;

fn place_name(n: u32) -> Name
    ensures { result ≡ place_name n }
{
    numbered(b'P', n)
}

fn add_places(entries: &mut Vec<Entry>) -> Result<(), AllocError>
    ensures { OnOk result (entries.new.items ≡ entries.old.items ++ place_entries 0 6) }
{
    for n in 0..PLACES {
        let name = place_name(n);
        entries.push(Entry::Place { name })?;
    }
    Ok(())
}

/// A time for each two places.
fn add_travels(generator: &mut Lcg64Xsh32, entries: &mut Vec<Entry>) -> Result<(), AllocError>
    ensures entries { OnOk result (entries.new.items
        ≡ entries.old.items ++ travel_entries generator.old ways) }
    ensures draws { OnOk result (generator.new ≡ after 15 generator.old) }
{
    for (a, b) in &WAYS {
        entries.push(Entry::Travel {
            from: place_name(*a),
            to: place_name(*b),
            minutes: 5 + draw(generator, 11),
        })?;
    }
    Ok(())
}

/// A set of one skill, drawn.
fn one_skill(generator: &mut Lcg64Xsh32) -> u64
    ensures skill { result ≡ 2 ^ draw generator.old 3 }
    ensures draws { generator.new ≡ after 1 generator.old }
{
    1 << draw(generator, SKILLS)
}

/// Team `k`.
fn team(generator: &mut Lcg64Xsh32, k: u32) -> Entry
    ensures entry { result ≡ team_entry generator.old k }
    ensures draws { generator.new ≡ after 3 generator.old }
{
    let from = 360 + 60 * draw(generator, 4);
    let first = one_skill(generator);
    let second = one_skill(generator);
    Entry::Team {
        name: numbered(b'T', k),
        home: place_name(0),
        from,
        until: from + 480,
        skills: first | second,
    }
}

fn add_teams(
    generator: &mut Lcg64Xsh32,
    entries: &mut Vec<Entry>,
    teams: u32,
) -> Result<(), AllocError>
    ensures entries { OnOk result (entries.new.items
        ≡ entries.old.items ++ team_entries generator.old 0 teams) }
    ensures draws { OnOk result (generator.new ≡ after (3 * teams) generator.old) }
{
    for k in 0..teams {
        entries.push(team(generator, k))?;
    }
    Ok(())
}

/// The skills of a task: none, or one.
fn task_skills(generator: &mut Lcg64Xsh32) -> u64
    ensures skills { result ≡ (if draw generator.old 2 == 0 then 0 else 2 ^ draw
        (after 1 generator.old) 3) }
    ensures draws { generator.new ≡ after (if draw generator.old 2 == 0 then 1 else 2)
        generator.old }
{
    if draw(generator, 2) == 0 {
        return 0;
    }
    one_skill(generator)
}

/// Task `j`.
fn task(generator: &mut Lcg64Xsh32, j: u32) -> Entry
    ensures entry { result ≡ task_entry generator.old j }
    ensures draws { generator.new ≡ after (task_draws generator.old) generator.old }
{
    let place = draw(generator, PLACES);
    let earliest = 360 + draw(generator, 541);
    let latest = earliest + draw(generator, 61);
    let minutes = 20 + draw(generator, 41);
    let two = draw(generator, 4) == 0;
    Entry::Task {
        name: numbered(b'J', j),
        place: place_name(place),
        earliest,
        latest,
        minutes,
        teams: if two { 2 } else { 1 },
        skills: task_skills(generator),
    }
}

fn add_tasks(
    generator: &mut Lcg64Xsh32,
    entries: &mut Vec<Entry>,
    tasks: u32,
) -> Result<(), AllocError>
    ensures { OnOk result (entries.new.items
        ≡ entries.old.items ++ task_entries generator.old 0 tasks) }
{
    for j in 0..tasks {
        entries.push(task(generator, j))?;
    }
    Ok(())
}

/// The day with a number, as the records of a day say it: 6 places, the times between them, so many teams and tasks,
/// and one plan with a budget of nodes. Each number that it has is drawn: of PCG XSH RR 64/32 (M. E. O'Neill), begun at
/// the day's number on stream 7, each draw takes the next output, modulo how many numbers there are. Equal calls make
/// equal days. A new desk takes all entries, and each round has an instance.
pub fn make(
    alloc: Global,
    number: u64,
    teams: u32,
    tasks: u32,
    nodes: u32,
) -> Result<Vec<Entry>, AllocError>
    requires teams { teams ≤ MOST_TEAMS }
    requires tasks { tasks ≤ MOST_TASKS }
    requires nodes { nodes ≤ MOST_NODES }
    ensures day { IfOk result (λ entries. entries.items ≡ generated_day number teams tasks nodes) }
    ensures ranges { IfOk result (λ entries. All IsInRange entries.items) }
    ensures taken { IfOk result (λ entries. AreTaken start entries.items) }
{
    generated_days_are_taken();
    let mut generator = generator_of(number);
    let mut entries = Vec::new(alloc);
    add_places(&mut entries)?;
    add_travels(&mut generator, &mut entries)?;
    add_teams(&mut generator, &mut entries, teams)?;
    add_tasks(&mut generator, &mut entries, tasks)?;
    entries.push(Entry::Plan { nodes })?;
    Ok(entries)
}
