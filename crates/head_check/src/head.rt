// The lines of an instance: `size`, `place`, `travel`, `team` and `task`, behind the first line of the dossier.
ghost use Rattle.std.specs.Prelude.{◌≡◌, ◌<◌, ◌+◌, ℕ, suc, List, pos, map, length, OnOk, IsTrue};
ghost use Rattle.crew_terms.specs.Rules.{IsTeamCount};
ghost use Rattle.crew_terms.specs.declared.TheConstants.{LAST_MINUTE};
ghost use Rattle.crew_instance.specs.Draft.{with_row};
ghost use Rattle.dossier_terms.specs.HeadTable.{after_place, after_travel, after_team, after_task};
ghost use Rattle.dossier_terms.specs.Reading.{places_due, travels_due, teams_due, tasks_due};
ghost use Rattle.dossier_terms.specs.Rules.{Goes};
ghost use Rattle.head_check.specs.Head.{Holds, HasPlacesLeft, HasRowsLeft, HasTeamsLeft, HasTasksLeft, HeadTells, IsHeadStep, IsRowOf, opening_of, places_of, read_of, read_before_rows};
ghost use Rattle.head_check.specs.Numbers.{AreBelow, naturals};

use crate::due::{Base, Head, HeadDue};
use crate::faults::refusal_of;
use crate::numbers::{number_list, skill_set};
use cert_format::{
    TaskLine, TeamLine, fault_is_refused, read_form, read_place, read_size, read_task, read_team,
    read_travel,
};
use crew_instance::{Builder, Name, Task, Team};
use dossier_terms::{DossierForm, Reason};
use field_table::LineWords;
use line_in::{LineNumbers, Refusal};
use std::alloc::{AllocError, Global};

/// What is due where no task is to come.
// Once a dossier: room for what it moves is not to be made for each task.
#[inline(never)]
fn due_behind_tasks(alloc: Global, head: Box<Head>) -> Result<HeadDue, Refusal>
    requires { HasTasksLeft head.value 0 }
    ensures { let i = read_of head.value in
        HeadTells (Goes (tasks_due (opening_of head.value) 0 i)) result }
{
    if let DossierForm::Two = head.form {
        return Ok(HeadDue::Frozen { head });
    }
    let Head {
        form,
        size,
        builder,
    } = Box::into_inner(head);
    let instance = builder.into_instance().map_err(refusal_of)?;
    let base = Base {
        form,
        instance,
        nodes: size.nodes,
    };
    let base = Box::new(alloc, base)?;
    Ok(HeadDue::Whole { base })
}

/// What is due where so many tasks are to come.
fn due_tasks(alloc: Global, head: Box<Head>, more: u64) -> Result<HeadDue, Refusal>
    requires { HasTasksLeft head.value more }
    ensures { let i = read_of head.value in
        HeadTells (Goes (tasks_due (opening_of head.value) more i)) result }
{
    if more > 0 {
        return Ok(HeadDue::Task {
            head,
            more: more - 1,
        });
    }
    due_behind_tasks(alloc, head)
}

/// What is due where so many teams are to come.
fn due_teams(alloc: Global, head: Box<Head>, more: u64) -> Result<HeadDue, Refusal>
    requires { HasTeamsLeft head.value more }
    ensures { let i = read_of head.value in
        HeadTells (Goes (teams_due (opening_of head.value) more i)) result }
{
    if more > 0 {
        return Ok(HeadDue::Team {
            head,
            more: more - 1,
        });
    }
    let tasks = head.size.tasks;
    due_tasks(alloc, head, tasks as u64)
}

/// What is due where so many rows of travel times are to come.
fn due_travels(alloc: Global, head: Box<Head>, more: u64) -> Result<HeadDue, Refusal>
    requires { HasRowsLeft head.value more }
    ensures { let i = read_before_rows head.value more in
        HeadTells (Goes (travels_due (opening_of head.value) more i)) result }
{
    if more > 0 {
        return Ok(HeadDue::Travel {
            head,
            more: more - 1,
        });
    }
    let teams = head.size.teams;
    due_teams(alloc, head, teams as u64)
}

/// What is due where so many places are to come.
fn due_places(alloc: Global, head: Box<Head>, more: u64) -> Result<HeadDue, Refusal>
    requires { HasPlacesLeft head.value more }
    ensures { let i = places_of head.value in
        HeadTells (Goes (places_due (opening_of head.value) more i)) result }
{
    if more > 0 {
        return Ok(HeadDue::Place {
            head,
            more: more - 1,
        });
    }
    let places = head.size.places;
    due_travels(alloc, head, places as u64)
}

/// The first line.
pub fn form_line(words: LineWords<'_>) -> Result<HeadDue, Refusal>
    ensures { IsHeadStep HeadDue.Form words.entry result }
{
    fault_is_refused();
    let form = read_form(words)?;
    Ok(HeadDue::Size { form })
}

/// The line `size`.
pub fn size_line(alloc: Global, form: DossierForm, words: LineWords<'_>) -> Result<HeadDue, Refusal>
    ensures { IsHeadStep (HeadDue.Size form) words.entry result }
{
    fault_is_refused();
    let size = read_size(words)?;
    let (places, teams, tasks) = (size.places, size.teams, size.tasks);
    let builder = Builder::with_room(alloc, places as usize, teams as usize, tasks as usize)?;
    let head = Head {
        form,
        size,
        builder,
    };
    let head = Box::new(alloc, head)?;
    due_places(alloc, head, size.places as u64)
}

/// Adds a place that a line spells.
fn add_place(alloc: Global, mut head: Box<Head>, more: u64, name: Name) -> Result<HeadDue, Refusal>
    requires { Holds (HeadDue.Place head more) }
    ensures { let i = places_of head.value in
        HeadTells (after_place (opening_of head.value) more i name) result }
{
    let held = &mut *head;
    held.builder.place(name).map_err(refusal_of)?;
    due_places(alloc, head, more)
}

/// A line `place`.
pub fn place_line(
    alloc: Global,
    head: Box<Head>,
    more: u64,
    words: LineWords<'_>,
) -> Result<HeadDue, Refusal>
    requires { Holds (HeadDue.Place head more) }
    ensures { IsHeadStep (HeadDue.Place head more) words.entry result }
{
    fault_is_refused();
    let name = read_place(words)?;
    add_place(alloc, head, more, name)
}

/// Sets the times from a place to each place.
fn set_row(
    alloc: Global,
    builder: &mut Builder,
    place: u32,
    times: &LineNumbers<'_>,
) -> Result<(), AllocError>
    requires place { place < length builder.old.places }
    requires count { length times.now ≡ length builder.old.places }
    requires day { AreBelow (LAST_MINUTE + 1) times.now }
    ensures { OnOk result (builder.new ≡ with_row builder.old place (naturals times.now)) }
{
    let row = number_list(alloc, times)?;
    match builder.travel_from(place, row) {
        Ok(()) => Ok(()),
        Err(_) => unreachable!(),
    }
}

/// Adds the travel times from the next place, which a line spells.
fn add_travel(
    alloc: Global,
    mut head: Box<Head>,
    more: u64,
    times: &LineNumbers<'_>,
) -> Result<HeadDue, Refusal>
    requires held { Holds (HeadDue.Travel head more) }
    requires times { IsRowOf times.now head.value }
    ensures { let i = read_before_rows head.value (suc more) in
        (row : List ℕ) → times.now ≡ map pos row
        → HeadTells (after_travel (opening_of head.value) more i row) result }
{
    let held = &mut *head;
    let from = (held.builder.places() as u64 - 1 - more) as u32;
    set_row(alloc, &mut held.builder, from, times)?;
    due_travels(alloc, head, more)
}

/// A line `travel`.
pub fn travel_line(
    alloc: Global,
    head: Box<Head>,
    more: u64,
    words: LineWords<'_>,
) -> Result<HeadDue, Refusal>
    requires { Holds (HeadDue.Travel head more) }
    ensures { IsHeadStep (HeadDue.Travel head more) words.entry result }
{
    fault_is_refused();
    let times = read_travel(words, head.size.places)?;
    add_travel(alloc, head, more, &times)
}

/// Adds a team that a line spells, whose skills rise strictly where `rises` says so.
fn add_team(
    alloc: Global,
    mut head: Box<Head>,
    more: u64,
    team: Team,
    rises: bool,
) -> Result<HeadDue, Refusal>
    requires held { Holds (HeadDue.Team head more) }
    requires home { team.home < head.value.size.places }
    ensures { let i = read_of head.value in
        HeadTells (after_team (opening_of head.value) more i team (IsTrue rises)) result }
{
    let held = &mut *head;
    held.builder.team(team).map_err(refusal_of)?;
    if !rises {
        return Err(Refusal::No(Reason::Instance));
    }
    due_teams(alloc, head, more)
}

/// A line `team`.
pub fn team_line(
    alloc: Global,
    head: Box<Head>,
    more: u64,
    words: LineWords<'_>,
) -> Result<HeadDue, Refusal>
    requires { Holds (HeadDue.Team head more) }
    ensures { IsHeadStep (HeadDue.Team head more) words.entry result }
{
    fault_is_refused();
    let TeamLine {
        name,
        home,
        from,
        until,
        skills,
    } = read_team(words, head.size.places)?;
    let set = skill_set(&skills);
    let team = Team {
        name,
        home,
        from,
        until,
        skills: set.unwrap_or(0),
    };
    add_team(alloc, head, more, team, set.is_some())
}

/// Adds a task that a line spells, whose skills rise strictly where `rises` says so.
fn add_task(
    alloc: Global,
    mut head: Box<Head>,
    more: u64,
    task: Task,
    rises: bool,
) -> Result<HeadDue, Refusal>
    requires held { Holds (HeadDue.Task head more) }
    requires place { task.place < head.value.size.places }
    requires teams { IsTeamCount task.teams }
    ensures { let i = read_of head.value in
        HeadTells (after_task (opening_of head.value) more i task (IsTrue rises)) result }
{
    let held = &mut *head;
    held.builder.task(task).map_err(refusal_of)?;
    if !rises {
        return Err(Refusal::No(Reason::Instance));
    }
    due_tasks(alloc, head, more)
}

/// A line `task`.
pub fn task_line(
    alloc: Global,
    head: Box<Head>,
    more: u64,
    words: LineWords<'_>,
) -> Result<HeadDue, Refusal>
    requires { Holds (HeadDue.Task head more) }
    ensures { IsHeadStep (HeadDue.Task head more) words.entry result }
{
    fault_is_refused();
    let TaskLine {
        name,
        place,
        earliest,
        latest,
        minutes,
        teams,
        skills,
    } = read_task(words, head.size.places)?;
    let set = skill_set(&skills);
    let skills = set.unwrap_or(0);
    let task = Task {
        name,
        place,
        earliest,
        latest,
        minutes,
        teams,
        skills,
    };
    add_task(alloc, head, more, task, set.is_some())
}
