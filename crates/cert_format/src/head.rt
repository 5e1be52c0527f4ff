// The lines of the head: the form, an instance and its frozen jobs.
ghost use Rattle.cert_format.specs.Typed.{ReadsAs, team_kind, task_kind, keep_kind};

use crate::kinds::{Expect, LineKind};
use crate::typed::{JobLine, TaskLine, TeamLine};
use crew_terms::{
    LAST_MINUTE, MOST_NODES, MOST_PLACES, MOST_TASKS, MOST_TEAMS, MOST_TEAMS_PER_TASK, Name, SKILLS,
};
use dossier_terms::{DossierForm, Size};
use field_table::{LineWords, field, fields};
use line_in::LineFault;
use line_in::numbers::{LineNumbers, read_below, read_in};
use line_in::ranges::{MINUTE, read_name};
use line_in::shape::{has_shape, has_shape_from, is_word};

/// Reads the first line, `crew dossier 1` or `crew dossier 2`, or tells its first fault.
pub fn read_form(words: LineWords<'_>) -> Result<DossierForm, LineFault>
    ensures { ReadsAs Expect.Form LineKind.Form words.entry result }
{
    if !has_shape(&words, b"crew", 2) {
        return Err(LineFault::Shape);
    }
    if !is_word(&words, 1, b"dossier") {
        return Err(LineFault::Shape);
    }
    if is_word(&words, 2, b"1") {
        return Ok(DossierForm::One);
    }
    if is_word(&words, 2, b"2") {
        return Ok(DossierForm::Two);
    }
    Err(LineFault::Shape)
}

/// Reads the line `size`: how many teams, tasks and places there are, and the node budget, or tells its first fault.
pub fn read_size(words: LineWords<'_>) -> Result<Size, LineFault>
    ensures { ReadsAs Expect.Size LineKind.Size words.entry result }
{
    if !has_shape(&words, b"size", 4) {
        return Err(LineFault::Shape);
    }
    fields!(
        &words, teams: Number(0, MOST_TEAMS as i64), tasks: Number(0, MOST_TASKS as i64),
        places: Number(0, MOST_PLACES as i64), nodes: Number(0, MOST_NODES as i64);
        else fault => LineFault::Number
    );
    Ok(Size {
        teams: teams as u32,
        tasks: tasks as u32,
        places: places as u32,
        nodes: nodes as u32,
    })
}

/// Reads a line `place`: a name, or tells its first fault.
pub fn read_place(words: LineWords<'_>) -> Result<Name, LineFault>
    ensures { ReadsAs Expect.Place LineKind.Place words.entry result }
{
    if !has_shape(&words, b"place", 1) {
        return Err(LineFault::Shape);
    }
    read_name(&words)
}

/// Reads a line `travel` of an instance with so many places: the minutes to each of them, or tells its first fault.
pub fn read_travel<'a>(words: LineWords<'a>, places: u32) -> Result<LineNumbers<'a>, LineFault>
    ensures { ReadsAs (Expect.Travel places) LineKind.Travel words.entry result }
{
    if !has_shape(&words, b"travel", places as usize) {
        return Err(LineFault::Shape);
    }
    read_below(words, 1, LAST_MINUTE + 1)
}

/// Reads a line `team` of an instance with so many places, or tells its first fault.
pub fn read_team<'a>(words: LineWords<'a>, places: u32) -> Result<TeamLine<'a>, LineFault>
    ensures { ReadsAs (Expect.Team places) team_kind words.entry result }
{
    if !has_shape_from(&words, b"team", 4) {
        return Err(LineFault::Shape);
    }
    let last = places as i64 - 1;
    let name = read_name(&words)?;
    let home = read_in(&words, 2, &field!(Number(0, last)))?;
    let from = read_in(&words, 3, &MINUTE)?;
    let until = read_in(&words, 4, &MINUTE)?;
    let skills = read_below(words, 5, SKILLS)?;
    Ok(TeamLine {
        name,
        home: home as u32,
        from: from as u32,
        until: until as u32,
        skills,
    })
}

/// Reads a line `task` of an instance with so many places, or tells its first fault.
pub fn read_task<'a>(words: LineWords<'a>, places: u32) -> Result<TaskLine<'a>, LineFault>
    ensures { ReadsAs (Expect.Task places) task_kind words.entry result }
{
    if !has_shape_from(&words, b"task", 6) {
        return Err(LineFault::Shape);
    }
    let last = places as i64 - 1;
    let name = read_name(&words)?;
    let place = read_in(&words, 2, &field!(Number(0, last)))?;
    let earliest = read_in(&words, 3, &MINUTE)?;
    let latest = read_in(&words, 4, &MINUTE)?;
    let minutes = read_in(&words, 5, &field!(Number(1, LAST_MINUTE as i64)))?;
    let teams = read_in(&words, 6, &field!(Number(1, MOST_TEAMS_PER_TASK as i64)))?;
    let skills = read_below(words, 7, SKILLS)?;
    Ok(TaskLine {
        name,
        place: place as u32,
        earliest: earliest as u32,
        latest: latest as u32,
        minutes: minutes as u32,
        teams: teams as u32,
        skills,
    })
}

/// Reads the line `frozen`: how many jobs are frozen, at most `most`, or tells its first fault.
pub fn read_frozen(words: LineWords<'_>, most: u32) -> Result<u32, LineFault>
    ensures { ReadsAs (Expect.Frozen most) LineKind.Frozen words.entry result }
{
    if !has_shape(&words, b"frozen", 1) {
        return Err(LineFault::Shape);
    }
    let most = most as i64;
    fields!(&words, count: Number(0, most); else fault => LineFault::Number);
    Ok(count as u32)
}

/// Reads a line `keep` of an instance with so many teams and tasks, or tells its first fault.
pub fn read_keep<'a>(words: LineWords<'a>, teams: u32, tasks: u32) -> Result<JobLine<'a>, LineFault>
    ensures { ReadsAs (Expect.Keep teams tasks) keep_kind words.entry result }
{
    if !has_shape_from(&words, b"keep", 2) {
        return Err(LineFault::Shape);
    }
    let last = tasks as i64 - 1;
    fields!(&words, task: Number(0, last), start: MINUTE; else fault => LineFault::Number);
    let teams = read_below(words, 3, teams)?;
    Ok(JobLine {
        task: task as u32,
        start: start as u32,
        teams,
    })
}
